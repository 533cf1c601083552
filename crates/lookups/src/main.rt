// The edge cases of lookup, run and compared.
#![tactic(auto)]

use std::io;

// The bytes of an entry whose body is as long as its two bytes can say.
const WHOLE_ENTRY: usize = 65540;

fn found(
    rt: &impl Print,
    name: &str,
    site: &[u8],
    works: &[u8],
    number: u32,
    expected: u32,
) -> io::Result<()> {
    tell::figure(
        rt,
        name.as_bytes(),
        shelf::lookup_refusal(site, works, number),
        expected,
    )
}

fn whole_shelves(rt: &impl Print, site: &[u8], works: &[u8]) -> io::Result<()> {
    tell::part(
        rt,
        b"number 2, twice on the site's shelf",
        shelf::lookup(site, works, 2),
        b"\x01\x00\x01\x09",
    )?;
    tell::part(
        rt,
        b"number 7, on the works shelf",
        shelf::lookup(site, works, 7),
        b"\x01\x00\x02\x05\x06",
    )?;
    found(rt, "number 3, on neither", site, works, 3, 13)?;
    found(rt, "number 65538, on neither", site, works, 65538, 13)?;
    found(rt, "empty shelves", b"", b"", 2, 13)
}

fn damaged_shelves(rt: &impl Print, site: &[u8], works: &[u8]) -> io::Result<()> {
    let cut = b"\x00\x07\x01\x00\x02\x05";
    found(
        rt,
        "number 2, an entry of the works shelf cut short by one byte",
        site,
        cut,
        2,
        12,
    )?;
    tell::part(rt, b"its part", shelf::lookup(site, cut, 2), b"")?;
    found(
        rt,
        "an entry of the site's shelf cut short by one byte",
        cut,
        works,
        2,
        12,
    )?;
    found(
        rt,
        "a version that is not 1",
        site,
        b"\x00\x07\x02\x00\x00",
        2,
        12,
    )
}

fn shelves(rt: &impl Print) -> io::Result<()> {
    let site = b"\x00\x01\x01\x00\x00\x00\x02\x01\x00\x01\x09\x00\x02\x01\x00\x00";
    let works = b"\x00\x02\x01\x00\x00\x00\x07\x01\x00\x02\x05\x06";
    whole_shelves(rt, site, works)?;
    damaged_shelves(rt, site, works)
}

fn long_body(rt: &impl Print) -> io::Result<()> {
    let mut s = [255; WHOLE_ENTRY];
    s[2] = script::VERSION;
    tell::figure(
        rt,
        b"bytes of a frame whose body has 65535",
        shelf::lookup(&s, b"", 65535).len(),
        65538,
    )?;
    found(
        rt,
        "the same, cut short by one byte",
        &s[..WHOLE_ENTRY - 1],
        b"",
        65535,
        12,
    )
}

fn main(rt: HostRuntime) -> io::Result<()> {
    shelves(&rt)?;
    long_body(&rt)
}
