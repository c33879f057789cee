use crate::strike::Strike;

// What a counted word did: it stops the run, or the run goes on at some words, with a strike or without.
#[derive(Clone, Copy)]
pub(crate) enum Turn<'a> {
    Stop,
    Go(&'a [u32]),
    Struck(Strike, &'a [u32]),
}
