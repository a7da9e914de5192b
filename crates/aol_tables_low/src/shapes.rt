use aol_shape::{
    IntVec, Items, Name, NoMemory, Point, Shape, ShapeRefused, is_name, is_word, joined,
    unrank_into,
};
use std::alloc::Global;

/// Whether the entries make a shape, which then has just these.
fn is_shape(alloc: Global, entries: &[u32]) -> bool {
    match Shape::new(alloc, entries) {
        Some(shape) => shape.as_slice() == entries,
        None => false,
    }
}

#[test]
fn shapes_are_lists_within_limits(rt: HostRuntime) {
    let rows: [(&[u32], bool); 9] = [
        (&[], true),
        (&[2, 3], true),
        (&[2048, 2048], true),
        (&[1, 1, 1, 1, 1, 1, 1, 1, 1, 1, 1, 1], true),
        (&[0], false),
        (&[4194305], false),
        (&[2048, 2049], false),
        (&[4194304, 4194304, 4194304], false),
        (&[1, 1, 1, 1, 1, 1, 1, 1, 1, 1, 1, 1, 1], false),
    ];
    for (entries, want) in rows {
        assert_eq!(rt; is_shape(rt.alloc(), entries), want, "{entries:?}");
    }
}

/// Whether the entries make a point, which then has just these.
fn is_point(alloc: Global, entries: &[u32]) -> bool {
    match Point::new(alloc, entries) {
        Some(point) => point.as_slice() == entries,
        None => false,
    }
}

/// Whether the entries make a vector, which then has just these.
fn is_vector(alloc: Global, entries: &[i32]) -> bool {
    match IntVec::new(alloc, entries) {
        Some(vector) => vector.as_slice() == entries,
        None => false,
    }
}

#[test]
fn points_and_vectors_are_lists_within_limits(rt: HostRuntime) {
    assert!(rt; is_point(rt.alloc(), &[4, 0]));
    assert!(rt; !is_point(rt.alloc(), &[0; 13]));
    assert!(rt; is_vector(rt.alloc(), &[-2147483647, 3]));
    assert!(rt; !is_vector(rt.alloc(), &[i32::MIN]));
}

/// The point with this rank in a shape of rank 2; None where there is none.
fn point_at(alloc: Global, entries: &[u32], rank: u32) -> Option<[u32; 2]> {
    let shape = Shape::new(alloc, entries)?;
    if rank >= shape.size() || shape.as_slice().len() != 2 {
        return None;
    }
    let mut point = [9, 9];
    unrank_into(&shape, rank, &mut point);
    Some(point)
}

#[test]
fn points_are_numbered_row_by_row(rt: HostRuntime) {
    let points = [[0, 0], [0, 1], [0, 2], [1, 0], [1, 1], [1, 2]];
    for (rank, indices) in points.iter().enumerate() {
        let point = point_at(rt.alloc(), &[2, 3], rank as u32);
        assert_eq!(rt; point, Some(*indices));
    }
    assert_eq!(rt; point_at(rt.alloc(), &[2, 3], 6), None);
}

/// Whether the two shapes join to one of these entries, or why they don't.
fn joins_to(
    alloc: Global,
    first: &[u32],
    second: &[u32],
    want: &[u32],
) -> Result<bool, ShapeRefused> {
    let Some(one) = Shape::new(alloc, first) else {
        return Ok(false);
    };
    let Some(other) = Shape::new(alloc, second) else {
        return Ok(false);
    };
    Ok(joined(&one, &other)?.as_slice() == want)
}

#[test]
fn shapes_join(rt: HostRuntime) {
    let sevens = [1u32; 7];
    let rows: [(&[u32], &[u32], &[u32], Result<bool, ShapeRefused>); 3] = [
        (&[2, 3], &[4], &[2, 3, 4], Ok(true)),
        (&[2048, 2048], &[2], &[], Err(ShapeRefused::Points)),
        (&sevens, &sevens, &[], Err(ShapeRefused::Rank)),
    ];
    for (first, second, want, answer) in rows {
        assert_eq!(rt; joins_to(rt.alloc(), first, second, want), answer);
    }
}

#[test]
fn names_and_lists_keep_what_they_are_given(rt: HostRuntime) -> Result<(), NoMemory> {
    let name = Name::from_str(rt.alloc(), "alpha")?;
    assert_eq!(rt; name.copy(rt.alloc())?.as_str(), "alpha");
    let text = String::from_str(rt.alloc(), "beta")?;
    assert_eq!(rt; Name::from_string(text).as_str(), "beta");
    let list = Items::from_slice(rt.alloc(), &[3u8, 1, 4])?;
    assert_eq!(rt; list.as_slice(), [3, 1, 4].as_slice());
    let copied = Shape::new(rt.alloc(), &[5, 2]).map(|shape| shape.copy());
    assert_eq!(rt; copied.map(|shape| shape.size()), Some(10));
    Ok(())
}

#[test]
fn names_begin_with_a_letter_and_are_no_words(rt: HostRuntime) {
    let rows = [
        ("_a9", true),
        ("9a", false),
        ("a-b", false),
        ("", false),
        ("min", false),
        ("mint", true),
        (
            "abcdefghijklmnopqrstuvwxyzabcdefghijklmnopqrstuvwxyzabcdefghijkl",
            true,
        ),
        (
            "abcdefghijklmnopqrstuvwxyzabcdefghijklmnopqrstuvwxyzabcdefghijklm",
            false,
        ),
    ];
    for (text, want) in rows {
        assert_eq!(rt; is_name(text), want, "{text}");
    }
}

#[test]
fn words_are_those_of_expressions(rt: HostRuntime) {
    let rows = [
        ("min", true),
        ("max", true),
        ("if", true),
        ("sum", true),
        ("Min", false),
        ("summ", false),
        ("", false),
    ];
    for (text, want) in rows {
        assert_eq!(rt; is_word(text), want, "{text}");
    }
}
