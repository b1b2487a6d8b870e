ghost use Rattle.std.specs.Prelude.{◌≡◌, length};
ghost use Rattle.mem_disk.specs.MemPages.{pages_in};

use crate::MemPages;
use engine_base::{
    Addr, Fault, PageNo, Pages, read_address, read_field, write_address, write_field,
};
use std::test::Fail;

// A reference of 20 bytes at byte 100 of page 3: page 3, version 2, length 20,022.
fn write_reference(pages: &mut MemPages) -> Result<(), Fault>
    requires { length (pages_in pages.old) ≡ 4 }
    ensures { length (pages_in pages.new) ≡ 4 }
{
    write_field(pages, PageNo(3), 104, 4, 3)?;
    write_field(pages, PageNo(3), 108, 4, 2)?;
    write_field(pages, PageNo(3), 112, 8, 20_022)?;
    Ok(())
}

#[test]
fn a_reference_stands_in_its_bytes(rt: HostRuntime) -> Result<(), Fail> {
    let mut pages = MemPages::new(rt.alloc(), 4)?;
    write_reference(&mut pages)?;
    let mut bytes = [0xffu8; 20];
    pages.read(PageNo(3), 100, &mut bytes)?;
    assert_eq!(rt;
        bytes,
        [
            0, 0, 0, 0, 0, 0, 0, 3, 0, 0, 0, 2, 0, 0, 0, 0, 0, 0, 0x4e, 0x36
        ]
    );
    assert_eq!(rt; read_field(&mut pages, PageNo(3), 118, 2)?, 20_022);
    assert_eq!(rt;
        (pages.count(), pages.pins(), pages.room()),
        (4, 0, 262_138)
    );
    Ok(())
}

#[test]
fn a_null_address_reads_back(rt: HostRuntime) -> Result<(), Fail> {
    let mut pages = MemPages::new(rt.alloc(), 4)?;
    let null = Addr {
        page: PageNo(0xffff_ffff),
        at: 0,
    };
    write_address(&mut pages, PageNo(0), 16_378, null)?;
    assert_eq!(rt; read_address(&mut pages, PageNo(0), 16_378)?, null);
    assert_eq!(rt;
        read_field(&mut pages, PageNo(0), 16_378, 5)?,
        0xff_ffff_ff00
    );
    Ok(())
}
