use crate::made::{is_point, shape, tiler};
use aol_reshape::Reshape;
use std::test::Fail;

#[test]
fn copies_go_from_rank_to_rank(rt: HostRuntime) -> Result<(), Fail> {
    let alloc = rt.alloc();
    let copies = Reshape {
        space: shape(alloc, &[2])?,
        pattern: shape(alloc, &[3])?,
        source: tiler(alloc, &[0, 0], &[1, 0], &[0, 1])?,
        target: tiler(alloc, &[0, 0], &[0, 1], &[1, 0])?,
    };
    let (from, to) = (shape(alloc, &[2, 3])?, shape(alloc, &[3, 2])?);
    let (r, i) = ([1], [2]);
    let (mut source, mut target) = (None, None);
    if is_point(copies.space.as_slice(), &r) && is_point(copies.pattern.as_slice(), &i) {
        if copies.source.fits(&from, &copies.space, &copies.pattern) {
            source = Some(copies.source_of(&from, &r, &i));
        }
        if copies.target.fits(&to, &copies.space, &copies.pattern) {
            target = Some(copies.target_of(&to, &r, &i));
        }
    }
    assert_eq!(rt; source, Some(5));
    assert_eq!(rt; target, Some(5));
    Ok(())
}
