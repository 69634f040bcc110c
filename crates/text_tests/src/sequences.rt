//! Table 3-7: each row at its first and last byte, and one past both.
use std::test::Fail;
use text::faults::{TextFault, TooLong};
use text::sequences::{SequenceLength, sequence_length};
use text::well_formed;

// the first and the last sequence of each row
const GOOD: [&[u8]; 19] = [
    &[],
    &[0x00],
    &[0x7F],
    &[0xC2, 0x80],
    &[0xDF, 0xBF],
    &[0xE0, 0xA0, 0x80],
    &[0xE0, 0xBF, 0xBF],
    &[0xE1, 0x80, 0x80],
    &[0xEC, 0xBF, 0xBF],
    &[0xED, 0x80, 0x80],
    &[0xED, 0x9F, 0xBF],
    &[0xEE, 0x80, 0x80],
    &[0xEF, 0xBF, 0xBF],
    &[0xF0, 0x90, 0x80, 0x80],
    &[0xF0, 0xBF, 0xBF, 0xBF],
    &[0xF1, 0x80, 0x80, 0x80],
    &[0xF3, 0xBF, 0xBF, 0xBF],
    &[0xF4, 0x80, 0x80, 0x80],
    &[0xF4, 0x8F, 0xBF, 0xBF],
];

// one past a row's range at some byte, overlong, surrogate, or cut off
const BAD: [&[u8]; 24] = [
    &[0x80],
    &[0xBF],
    &[0xC0, 0x80],
    &[0xC1, 0xBF],
    &[0xC2, 0x7F],
    &[0xDF, 0xC0],
    &[0xE0, 0x9F, 0xBF],
    &[0xE0, 0xC0, 0x80],
    &[0xE1, 0x7F, 0x80],
    &[0xEC, 0xC0, 0x80],
    &[0xED, 0x7F, 0x80],
    &[0xED, 0xA0, 0x80],
    &[0xEE, 0x80, 0x7F],
    &[0xEF, 0xBF, 0xC0],
    &[0xF0, 0x8F, 0x80, 0x80],
    &[0xF0, 0xC0, 0x80, 0x80],
    &[0xF1, 0x80, 0x7F, 0x80],
    &[0xF3, 0xBF, 0xBF, 0xC0],
    &[0xF4, 0x90, 0x80, 0x80],
    &[0xF4, 0x7F, 0x80, 0x80],
    &[0xF5, 0x80, 0x80, 0x80],
    &[0xFF],
    &[0xE4, 0xBD],
    &[0xF0, 0x9F, 0x92],
];

#[test]
fn rows_are_well_formed(rt: HostRuntime) {
    for text in GOOD {
        assert_eq!(rt; well_formed(text), Ok(()));
    }
}

#[test]
fn others_are_refused_where_they_begin(rt: HostRuntime) {
    for text in BAD {
        assert_eq!(rt; well_formed(text), Err(TextFault::Malformed { at: 0 }));
    }
}

#[test]
fn the_first_bad_sequence_is_the_place(rt: HostRuntime) -> Result<(), Fail> {
    for bad in BAD {
        // over more than one block of ASCII, then characters of two and three bytes
        let mut text = Vec::new(rt.alloc());
        text.resize(150, b'-')?;
        text.extend_from_slice("é你".as_bytes())?;
        text.extend_from_slice(bad)?;
        assert_eq!(rt;
            well_formed(text.as_slice()),
            Err(TextFault::Malformed { at: 155 })
        );
    }
    Ok(())
}

#[test]
fn the_limit_is_a_mebibyte(rt: HostRuntime) -> Result<(), Fail> {
    let mut text = Vec::new(rt.alloc());
    text.resize(1_048_576, b'x')?;
    assert_eq!(rt; well_formed(text.as_slice()), Ok(()));
    text.push(b'x')?;
    assert_eq!(rt;
        well_formed(text.as_slice()),
        Err(TextFault::Long(TooLong { length: 1_048_577 }))
    );
    // too long comes before not well-formed
    text.push(0xFF)?;
    assert_eq!(rt;
        well_formed(text.as_slice()),
        Err(TextFault::Long(TooLong { length: 1_048_578 }))
    );
    Ok(())
}

#[test]
fn lead_bytes_tell_lengths(rt: HostRuntime) {
    for lead in 0..=255u8 {
        let expected = if lead <= 0x7F {
            Some(SequenceLength::One)
        } else if lead < 0xC2 || lead > 0xF4 {
            None
        } else if lead <= 0xDF {
            Some(SequenceLength::Two)
        } else if lead <= 0xEF {
            Some(SequenceLength::Three)
        } else {
            Some(SequenceLength::Four)
        };
        assert_eq!(rt; sequence_length(lead), expected);
    }
}
