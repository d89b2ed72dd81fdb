ghost use Rattle.std.specs.Prelude.{◌≡◌, ◌+◌, ◌<◌, false, IfOk, OnOk};

use dirac_common::{NoMemory, Picture, Plane};
use dirac_plan::{Planned, Planner, plan};
use dirac_types::Settings;
use std::alloc::Global;
use std::process::Abort;

/// Groups of 14 pictures with three between anchors, and two references.
fn settings_of_14() -> Settings {
    let mut settings = Settings::of_base(0);
    settings.gop = 14;
    settings.between = 3;
    settings.references = 2;
    settings
}

/// A planned picture.
fn row(
    number: u32,
    code: u8,
    ref1: Option<u32>,
    ref2: Option<u32>,
    retire: Option<u32>,
) -> Planned {
    Planned {
        number,
        code,
        ref1,
        ref2,
        retire,
    }
}

#[test]
fn plan_of_14_pictures(rt: HostRuntime) -> Result<(), NoMemory> {
    let settings = settings_of_14();
    assert!(rt; settings.check().is_ok());
    let planned = plan(rt.alloc(), 14, &settings)?;
    let wanted = [
        row(0, 0x0C, None, None, None),
        row(4, 0x0D, Some(0), None, None),
        row(1, 0x0A, Some(0), Some(4), None),
        row(2, 0x0A, Some(0), Some(4), None),
        row(3, 0x0A, Some(0), Some(4), None),
        row(8, 0x0E, Some(4), Some(0), None),
        row(5, 0x0A, Some(4), Some(8), None),
        row(6, 0x0A, Some(4), Some(8), None),
        row(7, 0x0A, Some(4), Some(8), None),
        row(12, 0x0E, Some(8), Some(0), Some(4)),
        row(9, 0x0A, Some(8), Some(12), None),
        row(10, 0x0A, Some(8), Some(12), None),
        row(11, 0x0A, Some(8), Some(12), None),
        row(13, 0x0E, Some(12), Some(0), Some(8)),
    ];
    assert!(rt; planned.as_slice() == wanted.as_slice());
    Ok(())
}

// Groups of five frames whose pictures are fields, one frame between two anchors; first with both fields of the last
// frame, and then without its second one.
#[test]
fn plans_of_fields(rt: HostRuntime) -> Result<(), NoMemory> {
    let mut settings = Settings::of_base(0);
    settings.fields = 1;
    settings.gop = 5;
    settings.between = 1;
    settings.references = 2;
    assert!(rt; settings.check().is_ok());
    let planned = plan(rt.alloc(), 10, &settings)?;
    let wanted = [
        row(0, 0x0C, None, None, None),
        row(1, 0x0D, Some(0), None, None),
        row(4, 0x0D, Some(0), None, None),
        row(5, 0x0D, Some(1), None, None),
        row(2, 0x0A, Some(0), Some(4), None),
        row(3, 0x0A, Some(1), Some(5), None),
        row(8, 0x0E, Some(4), Some(0), None),
        row(9, 0x0E, Some(5), Some(1), None),
        row(6, 0x0A, Some(4), Some(8), None),
        row(7, 0x0A, Some(5), Some(9), None),
    ];
    assert!(rt; planned.as_slice() == wanted.as_slice());
    let planned = plan(rt.alloc(), 9, &settings)?;
    let wanted = [
        row(0, 0x0C, None, None, None),
        row(1, 0x0D, Some(0), None, None),
        row(4, 0x0D, Some(0), None, None),
        row(5, 0x0D, Some(1), None, None),
        row(2, 0x0A, Some(0), Some(4), None),
        row(3, 0x0A, Some(1), Some(5), None),
        row(8, 0x0E, Some(4), Some(0), None),
        row(6, 0x0A, Some(4), Some(8), None),
        row(7, 0x0A, Some(5), Some(8), None),
    ];
    assert!(rt; planned.as_slice() == wanted.as_slice());
    Ok(())
}

/// A picture of one grey sample a plane.
fn numbered(alloc: Global, number: u32) -> Result<Picture, NoMemory>
    ensures { IfOk result (λ p. p.number ≡ number) }
{
    Ok(Picture {
        number,
        y: Plane::try_new(alloc, 1, 1, 0)?,
        u: Plane::try_new(alloc, 1, 1, 0)?,
        v: Plane::try_new(alloc, 1, 1, 0)?,
    })
}

/// Pushes the picture of this number, which is accepted.
fn accepts<R: Abort>(
    rt: &R,
    alloc: Global,
    planner: &mut Planner,
    number: u32,
) -> Result<(), NoMemory>
    requires number { (planner.old.accepted ≡ number) × (number < 100) }
    requires not_ended { planner.old.ended ≡ false }
    ensures number { OnOk result (planner.new.accepted ≡ number + 1) }
    ensures not_ended { planner.new.ended ≡ false }
{
    match planner.push(numbered(alloc, number)?) {
        Ok(()) => Ok(()),
        Err(_) => panic!(rt; "a picture was handed back"),
    }
}

/// Pushes the picture of this number, which is handed back.
fn refuses<R: Abort>(
    rt: &R,
    alloc: Global,
    planner: &mut Planner,
    number: u32,
) -> Result<(), NoMemory>
    requires number { (planner.old.accepted ≡ number) × (number < 100) }
    requires not_ended { planner.old.ended ≡ false }
    ensures unchanged { planner.new ≡ planner.old }
{
    match planner.push(numbered(alloc, number)?) {
        Ok(()) => panic!(rt; "a picture was accepted"),
        Err(back) => {
            assert_eq!(rt; back.number, number);
            Ok(())
        }
    }
}

/// Takes the next planned picture while pictures may still come, and compares its number, or that none is given.
fn gives<R: Abort>(rt: &R, planner: &mut Planner, number: Option<u32>)
    requires { planner.old.ended ≡ false }
    ensures accepted { planner.new.accepted ≡ planner.old.accepted }
    ensures not_ended { planner.new.ended ≡ false }
{
    let given = match planner.take(false) {
        Some((planned, _)) => Some(planned.number),
        None => None,
    };
    assert_eq!(rt; given, number);
}

/// Pushes the first picture, which is given, and the four up to the first anchor, before which none is.
fn fills<R: Abort>(rt: &R, alloc: Global, planner: &mut Planner) -> Result<(), NoMemory>
    requires number { planner.old.accepted ≡ 0 }
    requires not_ended { planner.old.ended ≡ false }
    ensures number { OnOk result (planner.new.accepted ≡ 5) }
    ensures not_ended { planner.new.ended ≡ false }
{
    accepts(rt, alloc, planner, 0)?;
    gives(rt, planner, Some(0));
    accepts(rt, alloc, planner, 1)?;
    accepts(rt, alloc, planner, 2)?;
    accepts(rt, alloc, planner, 3)?;
    gives(rt, planner, None);
    accepts(rt, alloc, planner, 4)
}

#[test]
fn planner_waits_for_an_anchor(rt: HostRuntime) -> Result<(), NoMemory> {
    let alloc = rt.alloc();
    let settings = settings_of_14();
    assert!(rt; settings.check().is_ok());
    let mut planner = Planner::try_new(alloc, &settings)?;
    fills(&rt, alloc, &mut planner)?;
    gives(&rt, &mut planner, Some(4));
    refuses(&rt, alloc, &mut planner, 5)?;
    gives(&rt, &mut planner, Some(1));
    gives(&rt, &mut planner, Some(2));
    refuses(&rt, alloc, &mut planner, 5)?;
    gives(&rt, &mut planner, Some(3));
    gives(&rt, &mut planner, None);
    accepts(&rt, alloc, &mut planner, 5)?;
    // the pictures have ended: a last anchor is given though fewer wait than a step has
    let given = [planner.take(true).is_some(), planner.take(true).is_some()];
    assert_eq!(rt; given, [true, false]);
    Ok(())
}
