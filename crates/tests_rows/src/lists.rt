use dirac_common::{NoMemory, Picture, Plane};
use dirac_refs::{Delivery, RefBuffer, key};
use std::alloc::Global;

/// A picture of one grey sample a plane.
fn numbered(alloc: Global, number: u32) -> Result<Picture, NoMemory> {
    Ok(Picture {
        number,
        y: Plane::try_new(alloc, 1, 1, 0)?,
        u: Plane::try_new(alloc, 1, 1, 0)?,
        v: Plane::try_new(alloc, 1, 1, 0)?,
    })
}

/// Appends the number of a picture that has left.
fn note(gone: &mut Vec<u32>, picture: Option<Picture>) -> Result<(), NoMemory> {
    if let Some(picture) = picture {
        gone.push(picture.number)?;
    }
    Ok(())
}

/// The numbers of pictures as they leave while these are pushed, and then the rest.
fn delivered(alloc: Global, first: u32, numbers: &[u32]) -> Result<Vec<u32>, NoMemory> {
    let mut gone = Vec::new(alloc);
    let mut delivery = Delivery::new();
    for number in numbers {
        let picture = numbered(alloc, *number)?;
        note(&mut gone, delivery.push(key(first, *number), picture))?;
    }
    for _ in 0..4u8 {
        note(&mut gone, delivery.pop())?;
    }
    Ok(gone)
}

#[test]
fn pictures_in_order_of_delivery(rt: HostRuntime) -> Result<(), NoMemory> {
    let alloc = rt.alloc();
    let rows: [(u32, &[u32], &[u32]); 2] = [
        (0, &[0, 4, 1, 2, 3, 8], &[0, 1, 2, 3, 4, 8]),
        // numbers that pass 2^32: the key is signed
        (
            4_294_967_295,
            &[4_294_967_295, 0, 4_294_967_294],
            &[4_294_967_294, 4_294_967_295, 0],
        ),
    ];
    for (first, coded, wanted) in rows {
        assert!(rt; delivered(alloc, first, coded)?.as_slice() == wanted);
    }
    Ok(())
}

#[test]
fn the_oldest_of_nine_leaves(rt: HostRuntime) -> Result<(), NoMemory> {
    let alloc = rt.alloc();
    let mut list = RefBuffer::new();
    for number in 0..9u32 {
        list.commit(None, Some(numbered(alloc, number)?));
    }
    let listed = [
        list.find(0).is_some(),
        list.find(1).is_some(),
        list.find(8).is_some(),
    ];
    assert_eq!(rt; (list.count(), listed), (8, [false, true, true]));
    list.commit(Some(4), None);
    assert_eq!(rt; (list.count(), list.find(4).is_some()), (7, false));
    Ok(())
}
