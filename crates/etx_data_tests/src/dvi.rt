// A whole file, byte by byte, and each call that takes memory once.
use etx_dvi::{Dvi, FontName, length, put, put_tail};
use etx_lists::Bytes;
use std::alloc::{AllocError, Global};
use std::test::Fail;

/// One page with a box of the letters a and b in a font `sf`, whose size and design size are 10pt: the box is 5pt high.
const FILE: [u8; 172] = [
    0xf7, 0x02, 0x01, 0x83, 0x92, 0xc0, 0x1c, 0x3b, 0x00, 0x00, 0x00, 0x00, 0x03, 0xe8, 0x1b, 0x20,
    0x54, 0x65, 0x58, 0x20, 0x6f, 0x75, 0x74, 0x70, 0x75, 0x74, 0x20, 0x31, 0x37, 0x37, 0x36, 0x2e,
    0x30, 0x37, 0x2e, 0x30, 0x34, 0x3a, 0x31, 0x32, 0x30, 0x30, 0x8b, 0x00, 0x00, 0x00, 0x00, 0x00,
    0x00, 0x00, 0x00, 0x00, 0x00, 0x00, 0x00, 0x00, 0x00, 0x00, 0x00, 0x00, 0x00, 0x00, 0x00, 0x00,
    0x00, 0x00, 0x00, 0x00, 0x00, 0x00, 0x00, 0x00, 0x00, 0x00, 0x00, 0x00, 0x00, 0x00, 0x00, 0x00,
    0x00, 0x00, 0x00, 0xff, 0xff, 0xff, 0xff, 0x9f, 0x05, 0x00, 0x00, 0xf3, 0x00, 0x00, 0x00, 0x00,
    0x00, 0x00, 0x0a, 0x00, 0x00, 0x00, 0x0a, 0x00, 0x00, 0x00, 0x02, 0x73, 0x66, 0xab, 0x61, 0x62,
    0x8c, 0xf8, 0x00, 0x00, 0x00, 0x2a, 0x01, 0x83, 0x92, 0xc0, 0x1c, 0x3b, 0x00, 0x00, 0x00, 0x00,
    0x03, 0xe8, 0x00, 0x05, 0x00, 0x00, 0x00, 0x0a, 0x00, 0x00, 0x00, 0x00, 0x00, 0x01, 0xf3, 0x00,
    0x00, 0x00, 0x00, 0x00, 0x00, 0x0a, 0x00, 0x00, 0x00, 0x0a, 0x00, 0x00, 0x00, 0x02, 0x73, 0x66,
    0xf9, 0x00, 0x00, 0x00, 0x71, 0x02, 0xdf, 0xdf, 0xdf, 0xdf, 0xdf, 0xdf,
];

fn font_definition(alloc: Global) -> Result<Option<Dvi>, AllocError> {
    let name = Bytes::from_slice(alloc, b"sf")?;
    Ok(FontName::new(name).map(|name| Dvi::FontDefinition {
        number: 0,
        checksum: 0,
        size: 655360,
        design_size: 655360,
        name,
    }))
}

#[test]
fn a_file_of_one_page(rt: HostRuntime) -> Result<(), Fail> {
    let first = font_definition(rt.alloc())?.ok_or("the name is too long")?;
    let again = font_definition(rt.alloc())?.ok_or("the name is too long")?;
    let commands = [
        Dvi::Pre {
            magnification: 1000,
        },
        Dvi::Bop {
            counts: [0; 10],
            last: -1,
        },
        Dvi::Down(327680),
        first,
        Dvi::FontNumber(0),
        Dvi::SetChar(97),
        Dvi::SetChar(98),
        Dvi::Eop,
        Dvi::Post {
            last: 42,
            magnification: 1000,
            tallest: 327680,
            widest: 655360,
            pushes: 0,
            pages: 1,
        },
        again,
        Dvi::PostPost { post: 113 },
    ];
    let mut out = Vec::new(rt.alloc());
    let mut place = 0u32;
    for c in &commands {
        place = place.wrapping_add(length(c));
        put(rt.alloc(), c, &mut out)?;
    }
    assert_eq!(rt; place, 166);
    put_tail(place, &mut out)?;
    assert_eq!(rt; out.as_slice(), FILE.as_slice());
    Ok(())
}

#[test]
fn other_commands(rt: HostRuntime) -> Result<(), Fail> {
    let mut out = Vec::new(rt.alloc());
    put(
        rt.alloc(),
        &Dvi::Special(Bytes::from_slice(rt.alloc(), b"x")?),
        &mut out,
    )?;
    put(
        rt.alloc(),
        &Dvi::SetRule {
            height: 1,
            width: -1,
        },
        &mut out,
    )?;
    put(
        rt.alloc(),
        &Dvi::PutRule {
            height: 256,
            width: 0,
        },
        &mut out,
    )?;
    put(rt.alloc(), &Dvi::Right(-128), &mut out)?;
    put(rt.alloc(), &Dvi::W(-1), &mut out)?;
    put(rt.alloc(), &Dvi::Z0, &mut out)?;
    let expected = [
        239, 1, 120, 132, 0, 0, 0, 1, 255, 255, 255, 255, 137, 0, 0, 1, 0, 0, 0, 0, 0, 144, 255,
        128, 148, 255, 166,
    ];
    assert_eq!(rt; out.as_slice(), expected.as_slice());
    Ok(())
}
