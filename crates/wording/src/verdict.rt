// What the layout pass makes of an image.
use crate::listing::Summary;
use crate::refusal::LayoutRefusal;
use image::items::survey;
use image::layout::first_fault;
use std::fmt;

// An image by its summary, or by why it is refused.
#[derive(Clone, Copy)]
pub struct LayoutVerdict<'a>(pub &'a [u32]);

impl fmt::Display for LayoutVerdict<'_> {
    fn fmt<W: fmt::Write>(&self, f: &mut fmt::Formatter<W>) -> fmt::Result {
        let image = self.0;
        let seen = survey(image);
        match first_fault(image) {
            None => write!(f, "{}", Summary(seen)),
            Some(fault) => write!(f, "{}", LayoutRefusal { image, fault, seen }),
        }
    }
}
