ghost use Rattle.firmware.specs.Exported.{Loads, Runs};
ghost use Rattle.labels.specs.Mastheads.{mastheads};
ghost use Rattle.labels.specs.Pairs.{pair};
ghost use Rattle.labels.specs.Stages.{stages};
ghost use Rattle.machine.specs.Box.{new_box};
ghost use Rattle.press_box.specs.Model.{stored};
ghost use Rattle.press_box.specs.Runs.{order};
ghost use Rattle.secrecy.specs.Promise.{KeepsPromise};
ghost use Rattle.std.specs.Prelude.{◌≡◌};

use crate::numbers::{Fault, Report, tell_load, tell_run};
use labels::{LabelKind, MastheadSet, Pair, Stage};
use machine::strike::Strike;
use press_box::imprint_box::ImprintBox;
use press_box::store::ImageStore;

// ---- what the calls of every kind share. C knows a function and a struct by one name alone, so each kind has its own of both.

// Empties the box. Boxes of every kind keep the secrecy promise.
fn make<K: LabelKind + Drop>(kind: K, store: &mut ImageStore)
    ensures made { stored store.new ≡ new_box }
    ensures promise { KeepsPromise (K.LabelKind.meaning kind) }
{
    let _ = ImprintBox::new(kind);
    *store = ImageStore::new();
}

fn load<K: LabelKind>(kind: &K, store: &mut ImageStore, image: &[u32], fault: &mut Fault) -> u8
    ensures { Loads (K.LabelKind.meaning kind.now) image.now (stored store.old) fault.old result (stored store.new) fault.new }
{
    tell_load(store.load(kind, image), fault)
}

fn run(
    store: &mut ImageStore,
    job: &[u32],
    fuel: u32,
    strip: &mut [Strike],
    sheet: &mut [u32],
    report: &mut Report,
) -> u8
    ensures { Runs (order job.now fuel strip.old sheet.old) (stored store.old) report.old result (stored store.new) strip.new sheet.new report.new }
{
    tell_run(store.run(job, fuel, strip, sheet), report)
}

// ---- a box for stages

#[derive(Drop)]
#[repr(C)]
pub struct StageBox {
    store: ImageStore,
}

// Empties the box. Boxes of this kind keep the secrecy promise.
#[unsafe(no_mangle)]
pub extern "C" fn imprint_stage_make(press: &mut StageBox)
    ensures made { stored press.new.store ≡ new_box }
    ensures promise { KeepsPromise stages }
{
    make(Stage, &mut press.store);
}

#[unsafe(no_mangle)]
pub extern "C" fn imprint_stage_load(press: &mut StageBox, image: &[u32], fault: &mut Fault) -> u8
    ensures { Loads stages image.now (stored press.old.store) fault.old result (stored press.new.store) fault.new }
{
    load(&Stage, &mut press.store, image, fault)
}

#[unsafe(no_mangle)]
pub extern "C" fn imprint_stage_run(
    press: &mut StageBox,
    job: &[u32],
    fuel: u32,
    strip: &mut [Strike],
    sheet: &mut [u32],
    report: &mut Report,
) -> u8
    ensures { Runs (order job.now fuel strip.old sheet.old) (stored press.old.store) report.old result (stored press.new.store) strip.new sheet.new report.new }
{
    run(&mut press.store, job, fuel, strip, sheet, report)
}

// ---- a box for masthead sets

#[derive(Drop)]
#[repr(C)]
pub struct MastheadBox {
    store: ImageStore,
}

// Empties the box. Boxes of this kind keep the secrecy promise.
#[unsafe(no_mangle)]
pub extern "C" fn imprint_mastheads_make(press: &mut MastheadBox)
    ensures made { stored press.new.store ≡ new_box }
    ensures promise { KeepsPromise mastheads }
{
    make(MastheadSet, &mut press.store);
}

#[unsafe(no_mangle)]
pub extern "C" fn imprint_mastheads_load(
    press: &mut MastheadBox,
    image: &[u32],
    fault: &mut Fault,
) -> u8
    ensures { Loads mastheads image.now (stored press.old.store) fault.old result (stored press.new.store) fault.new }
{
    load(&MastheadSet, &mut press.store, image, fault)
}

#[unsafe(no_mangle)]
pub extern "C" fn imprint_mastheads_run(
    press: &mut MastheadBox,
    job: &[u32],
    fuel: u32,
    strip: &mut [Strike],
    sheet: &mut [u32],
    report: &mut Report,
) -> u8
    ensures { Runs (order job.now fuel strip.old sheet.old) (stored press.old.store) report.old result (stored press.new.store) strip.new sheet.new report.new }
{
    run(&mut press.store, job, fuel, strip, sheet, report)
}

// ---- a box for the pair of stage and masthead set

#[derive(Drop)]
#[repr(C)]
pub struct StageMastheadBox {
    store: ImageStore,
}

// Empties the box. Boxes of this kind keep the secrecy promise.
#[unsafe(no_mangle)]
pub extern "C" fn imprint_stage_mastheads_make(press: &mut StageMastheadBox)
    ensures made { stored press.new.store ≡ new_box }
    ensures promise { KeepsPromise (pair stages mastheads) }
{
    make(Pair::new(Stage, MastheadSet), &mut press.store);
}

#[unsafe(no_mangle)]
pub extern "C" fn imprint_stage_mastheads_load(
    press: &mut StageMastheadBox,
    image: &[u32],
    fault: &mut Fault,
) -> u8
    ensures { Loads (pair stages mastheads) image.now (stored press.old.store) fault.old result (stored press.new.store) fault.new }
{
    load(
        &Pair::new(Stage, MastheadSet),
        &mut press.store,
        image,
        fault,
    )
}

#[unsafe(no_mangle)]
pub extern "C" fn imprint_stage_mastheads_run(
    press: &mut StageMastheadBox,
    job: &[u32],
    fuel: u32,
    strip: &mut [Strike],
    sheet: &mut [u32],
    report: &mut Report,
) -> u8
    ensures { Runs (order job.now fuel strip.old sheet.old) (stored press.old.store) report.old result (stored press.new.store) strip.new sheet.new report.new }
{
    run(&mut press.store, job, fuel, strip, sheet, report)
}
