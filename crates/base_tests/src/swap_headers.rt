use swap_area::*;

// The header that `mkswap -p 4096` of util-linux writes for 256 sectors, without its zeros.
fn header() -> [u8; PAGE] {
    let mut page = [0; PAGE];
    page[1024..1032].copy_from_slice(&[1, 0, 0, 0, 31, 0, 0, 0]);
    page[1036..1044].copy_from_slice(&[0x01, 0x23, 0x45, 0x67, 0x89, 0xab, 0xcd, 0xef]);
    page[1044..1052].copy_from_slice(&[0x01, 0x23, 0x45, 0x67, 0x89, 0xab, 0xcd, 0xef]);
    page[1052..1061].copy_from_slice(b"swaplabel");
    page[4086..4096].copy_from_slice(b"SWAPSPACE2");
    page
}

#[test]
fn reads_what_mkswap_wrote(rt: HostRuntime) {
    let page = header();
    assert!(rt; has_signature(&page));
    let swap = swap_of(&page, 256).expect(&rt, "no header");
    assert_eq!(rt; swap.last_page, 31);
    assert_eq!(rt; swap.bad, 0);
    assert_eq!(rt;
        [swap.uuid[0], swap.uuid[1], swap.uuid[15]],
        [0x01, 0x23, 0xef]
    );
    assert_eq!(rt; swap.label, *b"swaplabel\0\0\0\0\0\0\0");
    assert!(rt; swap_of(&page, 255).is_none());
}

#[test]
fn refuses_another_version_and_an_area_without_pages(rt: HostRuntime) {
    let mut page = header();
    page[1024] = 2;
    assert!(rt; swap_of(&page, 256).is_none());
    page[1024] = 1;
    page[1028] = 0;
    assert!(rt; swap_of(&page, 256).is_none());
    page[4095] = 0x31;
    assert!(rt; !has_signature(&page));
}

#[test]
fn grows_to_another_last_page(rt: HostRuntime) {
    let page = header();
    let mut old = [0; 512];
    old.copy_from_slice(&page[1024..1536]);
    let mut new = [9; 512];
    swap_sector(&old, 258, &mut new);
    let mut wanted = old;
    wanted[4..6].copy_from_slice(&[2, 1]);
    assert_eq!(rt; new, wanted);
}
