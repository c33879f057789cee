ghost use Rattle.machine.specs.Box.{loaded};
ghost use Rattle.press_box.specs.Model.{stored};
ghost use Rattle.press_box.specs.Refusals.{answered};
ghost use Rattle.rules.specs.Verdict.{verdict};
ghost use Rattle.std.specs.Prelude.{◌≡◌};

use super::ImageStore;
use crate::fault::LoadFault;
use flow::check_flow;
use labels::LabelKind;
use naming::check_names;
use programme::laid_out::LaidOut;

impl ImageStore {
    // Holds the image if it meets every rule under the kind; else answers the first refusal, and nothing changes.
    pub fn load<K: LabelKind>(&mut self, kind: &K, image: &[u32]) -> Result<(), LoadFault>
        ensures answer { answered result ≡ verdict (K.LabelKind.meaning kind.now) image.now }
        ensures model { stored self.new ≡ loaded (K.LabelKind.meaning kind.now) image.now (stored self.old) }
    {
        let laid_out = LaidOut::check(image)?;
        check_names(kind, laid_out)?;
        check_flow(kind, laid_out)?;
        self.keep(image);
        Ok(())
    }
}
