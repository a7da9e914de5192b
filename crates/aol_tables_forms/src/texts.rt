use aol_shape::LimitName;
use aol_vsl::{
    VslRefused, read_shape, read_tiler, read_vector, write_shape, write_tiler, write_vector,
};
use std::test::Fail;

#[test]
fn shapes(rt: HostRuntime) -> Result<(), Fail> {
    let alloc = rt.alloc();
    let points = VslRefused::Limit(6, LimitName::Points);
    let entry = VslRefused::Limit(1, LimitName::Entry);
    assert_eq!(rt; read_shape(alloc, "{2048,2049}").err(), Some(points));
    assert_eq!(rt; read_shape(alloc, "{4194305}").err(), Some(entry));
    assert_eq!(rt; read_shape(alloc, "{0}").err(), Some(entry));
    assert_eq!(rt; read_shape(alloc, "{-1}").err(), Some(entry));
    let square = read_shape(alloc, "{2048,2048}").ok().ok_or("refused")?;
    assert_eq!(rt; square.as_slice(), [2048, 2048].as_slice());
    let scalar = read_shape(alloc, "{ }").ok().ok_or("refused")?;
    assert_eq!(rt; write_shape(alloc, &scalar)?.as_str(), "{}");
    Ok(())
}

#[test]
fn vectors(rt: HostRuntime) -> Result<(), Fail> {
    let alloc = rt.alloc();
    let great = VslRefused::Limit(1, LimitName::Entry);
    let long = VslRefused::Limit(25, LimitName::Rank);
    assert_eq!(rt; read_vector(alloc, "{2147483648}").err(), Some(great));
    assert_eq!(rt;
        read_vector(alloc, "{0,0,0,0,0,0,0,0,0,0,0,0,0}").err(),
        Some(long)
    );
    let twelve = read_vector(alloc, "{0,0,0,0,0,0,0,0,0,0,0,0}")
        .ok()
        .ok_or("refused")?;
    assert_eq!(rt; twelve.as_slice().len(), 12);
    let pair = read_vector(alloc, "{ 3,-04 }").ok().ok_or("refused")?;
    assert_eq!(rt; write_vector(alloc, &pair)?.as_str(), "{3,-4}");
    Ok(())
}

#[test]
fn tilers(rt: HostRuntime) -> Result<(), Fail> {
    let alloc = rt.alloc();
    let spaced = read_tiler(alloc, " ( origin = {-0} ,paving={ {01} },fitting={})")
        .ok()
        .ok_or("refused")?;
    let text = write_tiler(alloc, &spaced)?;
    assert_eq!(rt; text.as_str(), "(origin={0},paving={{1}},fitting={})");
    let uneven = read_tiler(alloc, "(origin={0},paving={{1,2},{}},fitting={{3}})")
        .ok()
        .ok_or("refused")?;
    let text = write_tiler(alloc, &uneven)?;
    assert_eq!(rt;
        text.as_str(),
        "(origin={0},paving={{1,2},{}},fitting={{3}})"
    );
    Ok(())
}

#[test]
fn refused_tilers(rt: HostRuntime) -> Result<(), Fail> {
    let alloc = rt.alloc();
    let short = "(origin={0},paving={{1}})";
    assert_eq!(rt; read_tiler(alloc, short).err(), Some(VslRefused::At(24)));
    let misspelled = "(origim={0},paving={{1}},fitting={})";
    assert_eq!(rt;
        read_tiler(alloc, misspelled).err(),
        Some(VslRefused::At(6))
    );
    let many = "(origin={},paving={{},{},{},{},{},{},{},{},{},{},{},{},{}},fitting={})";
    let rank = VslRefused::Limit(55, LimitName::Rank);
    assert_eq!(rt; read_tiler(alloc, many).err(), Some(rank));
    let great = "(origin={0},paving={{2147483648}},fitting={})";
    let entry = VslRefused::Limit(21, LimitName::Entry);
    assert_eq!(rt; read_tiler(alloc, great).err(), Some(entry));
    Ok(())
}
