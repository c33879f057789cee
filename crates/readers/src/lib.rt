// What a reader sees of printings. A reader has a label, and may see the cells and channels whose label is at or below it. The questions
// that the secrecy promise asks of two printings are answered here: which strikes the reader sees, whether one list of strikes is a
// beginning of the other, and where two jobs, or the cells of two runs, differ in a word that the reader may see.
#![tactic(auto)]

pub mod agreement;
pub mod cells;
pub mod clash;
pub mod sight;
mod words;

#[cfg(test)]
mod tests {
    use crate::cells::{cell_labels, job_labels};
    use crate::sight::Reader;
    use labels::Stage;
    use machine::strike::Strike;
    use programme::laid_out::LaidOut;
    use std::test::Fail;

    // The card: channels 0 and 1 of the labels 0 and 1, and one tuple of two integer cells, of the labels 1 and 0.
    const CARD: [u32; 24] = [
        0x01000000, 0x01000001, 0x02000002, 0x11000001, 0x11000000, 0x03000000, 0x10000000,
        0x10000000, 0x10000000, 0x10000000, 0x10000000, 0x10000000, 0x10000000, 0x10000000,
        0x04000200, 0x00000000, 0x00000000, 0x05000006, 0x21000000, 0x25010001, 0x2B000100,
        0x25010000, 0x2B010100, 0x32000000,
    ];

    #[test]
    fn shows_a_reader_what_he_may_see(rt: HostRuntime) -> Result<(), Fail> {
        let Ok(image) = LaidOut::check(&CARD) else {
            return Err(Fail::new("the card is laid out"));
        };
        let heap = rt.alloc();
        let labels: &[u8] = &[1, 0];
        assert_eq!(rt; job_labels(heap, image)?.as_slice(), labels);
        assert_eq!(rt; cell_labels(heap, image)?.as_slice(), labels);
        let reader = Reader {
            kind: &Stage,
            image,
            label: 0,
        };
        let open = Strike {
            channel: 0,
            word: 7,
        };
        let secret = Strike {
            channel: 1,
            word: 9,
        };
        let sight: &[Strike] = &[open];
        assert_eq!(rt; reader.seen(heap, &[secret, open])?.as_slice(), sight);
        assert_eq!(rt; reader.first_job_clash(heap, &[1, 5], &[2, 5])?, None);
        assert_eq!(rt; reader.first_job_clash(heap, &[1, 5], &[2, 6])?, Some(1));
        assert_eq!(rt;
            reader.first_cell_clash(heap, &[1, 5, 0], &[2, 6, 0])?,
            Some(1)
        );
        Ok(())
    }
}
