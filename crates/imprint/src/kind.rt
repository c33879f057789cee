// The label kinds that a box can be made for here, by their names.
use std::str::FromStr;

#[derive(Clone, Copy)]
pub enum KindName {
    Stage,
    Mastheads,
    StageMastheads,
    MastheadsStage,
    StageStage,
    MastheadsMastheads,
}

pub const KINDS: &str =
    "stage, mastheads, and the pairs stage*mastheads, mastheads*stage, stage*stage and mastheads*mastheads";

// What is no kind's name.
#[derive(Clone, Copy)]
pub struct NoKind;

impl FromStr for KindName {
    type Err = NoKind;

    fn from_str(name: &str) -> Result<KindName, NoKind> {
        match name {
            "stage" => Ok(KindName::Stage),
            "mastheads" => Ok(KindName::Mastheads),
            "stage*mastheads" => Ok(KindName::StageMastheads),
            "mastheads*stage" => Ok(KindName::MastheadsStage),
            "stage*stage" => Ok(KindName::StageStage),
            "mastheads*mastheads" => Ok(KindName::MastheadsMastheads),
            _ => Err(NoKind),
        }
    }
}
