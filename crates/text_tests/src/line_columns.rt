//! Lines and columns, by a table and by reading.
use lines::faults::LineFault;
use lines::{LineIndex, Position};
use std::test::Fail;
use text::refusals::Refusal;

// text, offset, line and column; the bytes of the last are `hello 你好` LF `world`
const PLACES: [(&[u8], u32, usize, usize); 16] = [
    (b"", 0, 1, 1),
    (b"\n", 0, 1, 1),
    (b"\n", 1, 2, 1),
    (b"\na", 2, 2, 2),
    (b"a\r\nb", 0, 1, 1),
    (b"a\r\nb", 1, 1, 2),
    (b"a\r\nb", 2, 1, 3),
    (b"a\r\nb", 3, 2, 1),
    (b"a\r\nb", 4, 2, 2),
    (b"a\rb", 2, 1, 3),
    (b"\n\n\n", 2, 3, 1),
    (b"\n\n\n", 3, 4, 1),
    (b"hello \xE4\xBD\xA0\xE5\xA5\xBD\nworld", 6, 1, 7),
    (b"hello \xE4\xBD\xA0\xE5\xA5\xBD\nworld", 12, 1, 9),
    (b"hello \xE4\xBD\xA0\xE5\xA5\xBD\nworld", 13, 2, 1),
    (b"hello \xE4\xBD\xA0\xE5\xA5\xBD\nworld", 18, 2, 6),
];

#[test]
fn reading_and_the_table_agree(rt: HostRuntime) {
    for (text, offset, line, column) in PLACES {
        let mut buffer = [7u32; 8];
        let mut table = LineIndex::new(&mut buffer);
        assert_eq!(rt; table.fill(text), Ok(()));
        assert_eq!(rt; table.line_col(text, offset), Ok((line, column)));
        let read = Position::new(text, offset).map(|at| (at.pos(), at.line_col()));
        assert_eq!(rt; read, Ok((offset, (line, column))));
    }
}

#[test]
fn filling_notes_the_starts_and_no_more(rt: HostRuntime) {
    let text = b"hello \xE4\xBD\xA0\xE5\xA5\xBD\nworld";
    let mut buffer = [7u32; 4];
    {
        let mut table = LineIndex::new(&mut buffer);
        assert_eq!(rt; table.fill(text), Ok(()));
    }
    assert_eq!(rt; buffer, [0, 13, 7, 7]);
}

#[test]
fn a_short_buffer_is_refused_and_stays(rt: HostRuntime) {
    let mut buffer = [7u32; 2];
    {
        let mut table = LineIndex::new(&mut buffer);
        assert_eq!(rt; table.fill(b"a\nb"), Ok(()));
        // the table stays as it was filled before
        assert_eq!(rt; table.fill(b"\n\n\n"), Err(LineFault::Short { needed: 4 }));
        assert_eq!(rt; table.line_col(b"a\nb", 3), Ok((2, 2)));
    }
    assert_eq!(rt; buffer, [0, 2]);
    let mut none = [0u32; 0];
    let mut table = LineIndex::new(&mut none);
    assert_eq!(rt; table.fill(b""), Err(LineFault::Short { needed: 1 }));
    // a new table is 0 alone, whatever its buffer
    assert_eq!(rt; table.line_col(b"a\nb", 3), Ok((1, 4)));
}

// by a table of the first line alone
fn looked_up(text: &[u8], offset: u32) -> Result<(usize, usize), Refusal> {
    let mut buffer = [0u32; 1];
    Ok(LineIndex::new(&mut buffer).line_col(text, offset)?)
}

fn read(text: &[u8], offset: u32) -> Result<(usize, usize), Refusal> {
    Ok(Position::new(text, offset)?.line_col())
}

#[test]
fn offsets_past_the_text_or_in_a_character_are_refused(rt: HostRuntime) -> Result<(), Fail> {
    let heart = [0xF0, 0x9F, 0x92, 0x96];
    let unsound = |place| Err(Refusal { number: 11, place });
    assert_eq!(rt; looked_up(b"ab", 3), unsound(3));
    assert_eq!(rt; read(b"ab", 3), unsound(3));
    assert_eq!(rt; looked_up(&heart, 2), unsound(2));
    assert_eq!(rt; read(&heart, 2), unsound(2));
    assert_eq!(rt; looked_up(&heart, 4), Ok((1, 2)));
    assert_eq!(rt; read(&heart, 4), Ok((1, 2)));
    let mut text = Vec::new(rt.alloc());
    text.resize(1_048_577, b'x')?;
    let long = Refusal {
        number: 1,
        place: 1_048_577,
    };
    assert_eq!(rt; looked_up(text.as_slice(), 0), Err(long));
    assert_eq!(rt; read(text.as_slice(), 0), Err(long));
    let mut buffer = [0u32; 1];
    let mut table = LineIndex::new(&mut buffer);
    assert_eq!(rt;
        table.fill(text.as_slice()).map_err(Refusal::from),
        Err(long)
    );
    Ok(())
}
