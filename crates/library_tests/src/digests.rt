//! Digests of layouts and pages.

use measurement::{Layout, Measure, word};

const NOTHING: Layout = Layout {
    text_pages: 0,
    data_pages: 0,
    shared_count: 0,
    entry_offset: 0,
};

#[test]
fn digest_of_an_empty_layout_is_that_of_32_zero_bytes(rt: HostRuntime) {
    let digest = Measure::begin(&NOTHING).finish();
    assert!(rt;
        digest
            == [
                0x66, 0x68, 0x7a, 0xad, 0xf8, 0x62, 0xbd, 0x77, 0x6c, 0x8f, 0xc1, 0x8b, 0x8e, 0x9f,
                0x8e, 0x20, 0x08, 0x97, 0x14, 0x85, 0x6e, 0xe2, 0x33, 0xb3, 0x90, 0x2a, 0x59, 0x1d,
                0x0d, 0x5f, 0x29, 0x25,
            ]
    );
    assert!(rt; word(&digest, 0) == 0x77BD_62F8_AD7A_6866);
}

#[test]
fn words_are_little_endian(rt: HostRuntime) {
    let mut digest = [0; 32];
    for i in 0..32u8 {
        digest[i as usize] = i;
    }
    for (k, want) in [
        (0, 0x0706_0504_0302_0100),
        (1, 0x0F0E_0D0C_0B0A_0908),
        (2, 0x1716_1514_1312_1110),
        (3, 0x1F1E_1D1C_1B1A_1918),
    ] {
        assert!(rt; word(&digest, k) == want, "word {k}");
    }
}

fn digest_of_two_pages(second: &[u8; 4096]) -> [u8; 32] {
    let layout = Layout {
        text_pages: 2,
        data_pages: 0,
        shared_count: 0,
        entry_offset: 0,
    };
    let mut measure = Measure::begin(&layout);
    measure.page(&[0x13; 4096]);
    measure.page(second);
    measure.finish()
}

#[test]
fn one_byte_of_the_second_page_changes_the_digest(rt: HostRuntime) {
    let mut second = [0x13; 4096];
    let before = digest_of_two_pages(&second);
    assert!(rt; digest_of_two_pages(&second) == before);
    second[4095] = 0x14;
    assert!(rt; digest_of_two_pages(&second) != before);
}
