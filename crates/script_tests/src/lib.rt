//! Scripts, and what the rules say of each: the record that it prints, or the line that refuses it.
#![tactic(auto)]

#[cfg(test)]
mod tests {
    use scripts::faults::ScriptError;
    use scripts::reading::read;
    use scripts::words::{Word, keyword, number, rest};
    use std::alloc::{AllocError, Global};
    use std::process::Abort;
    use std::test::Fail;

    // The script prints this record.
    fn prints(rt: &impl Abort, heap: Global, script: &[u8], record: &[u8]) -> Result<(), Fail> {
        let made = read(heap, script)?;
        assert!(rt; made.as_slice() == record);
        Ok(())
    }

    // The script is refused, and this line is printed of it.
    fn refuses(rt: &impl Abort, heap: Global, script: &[u8], line: &str) -> Result<(), Fail> {
        match read(heap, script) {
            Ok(_) => Err(Fail::new("not refused")),
            Err(ScriptError::Refused(refusal)) => {
                let printed = refusal.to_string(heap)?;
                assert_eq!(rt; printed.as_str(), line);
                Ok(())
            }
            Err(ScriptError::NoMemory) => Err(Fail::new("no memory")),
        }
    }

    // Scripts with a text and no pairs.
    #[test]
    fn no_pairs(rt: HostRuntime) -> Result<(), Fail> {
        let table: [&[u8]; 10] = [
            b"plant\nshow\n",
            b"plant\nshow",
            b"grammar\nshow\n",
            b"grammar\nshow",
            b"plant\ntext\nshow\n",
            b"plant\ntext a\nnext\ntext b\nshow",
            b"plant\ntext a\r\nshow\n",
            b"plant\ntext a\0b\nshow\n",
            b"plant\ntext \xC3\ntext \xA9\nshow\n",
            b"plant\ntext \xF4\x8F\xBF\xBF\nnext\nshow\n",
        ];
        for script in table {
            prints(&rt, rt.alloc(), script, b"0 0\n")?;
        }
        Ok(())
    }

    // The rest of a `text` line is the text: a span over just that many bytes is sound.
    #[test]
    fn texts(rt: HostRuntime) -> Result<(), Fail> {
        let table: [(&[u8], &[u8]); 7] = [
            (b"plant\ntext\nrule 1 0 0\nshow\n", b"1 2\n0 1 0 0 1 1 -\n"),
            (b"plant\ntext \nrule 1 0 0\nshow\n", b"1 2\n0 1 0 0 1 1 -\n"),
            (
                b"plant\ntext  \nrule 1 0 1\nshow\n",
                b"1 2\n0 1 0 1 1 1 -\n",
            ),
            (
                b"plant\ntext  a \nrule 1 0 3\nshow\n",
                b"1 2\n0 1 0 3 1 1 -\n",
            ),
            (
                b"plant\ntext a\ntext b\nrule 1 0 2\nshow\n",
                b"1 2\n0 1 0 2 1 1 -\n",
            ),
            (
                b"grammar\ntext \xC3\xA9x\nnext\ntext yz\nrule 1 2 3\nrule 1 5 6\nrule 1 6 6\nshow\n",
                b"3 6\n0 1 2 3 1 2 -\n0 1 5 6 2 2 -\n0 1 6 6 2 3 -\n",
            ),
            (
                b"plant\nnext\nnext\nrule 1 1 2\nrule 1 2 2\nshow\n",
                b"2 4\n0 1 1 2 2 1 -\n0 1 2 2 3 1 -\n",
            ),
        ];
        for (script, record) in table {
            prints(&rt, rt.alloc(), script, record)?;
        }
        Ok(())
    }

    // Pairs inside pairs, and tags.
    #[test]
    fn records(rt: HostRuntime) -> Result<(), Fail> {
        let table: [(&[u8], &[u8]); 8] = [
            (
                b"grammar\ntext 1+2\nopen 0 0 3\nrule 1 0 1\ntag lhs\nrule 1 2 3\ntag rhs\nclose\nshow\n",
                b"3 6\n0 0 0 3 1 1 -\n1 1 0 1 1 1 =lhs\n1 1 2 3 1 3 =rhs\n",
            ),
            (
                b"grammar\ntext 1+2\nopen 0 0 3\nrule 1 0 1\nclose\ntag sum\nshow\n",
                b"2 4\n0 0 0 3 1 1 =sum\n1 1 0 1 1 1 -\n",
            ),
            (b"plant\nrule 1 0 0\ntag\nshow\n", b"1 2\n0 1 0 0 1 1 =\n"),
            (b"plant\nrule 1 0 0\ntag \nshow\n", b"1 2\n0 1 0 0 1 1 =\n"),
            (
                b"plant\nrule 1 0 0\ntag  a=b \ntag c\nrule 2 0 0\ntag \xFF-\nshow\n",
                b"2 4\n0 1 0 0 1 1 =c\n0 2 0 0 1 1 =\xFF-\n",
            ),
            (
                b"plant\nrule 0001 00 000000000000\nshow\n",
                b"1 2\n0 1 0 0 1 1 -\n",
            ),
            (b"plant\nrule 11 0 0\nshow\n", b"1 2\n0 11 0 0 1 1 -\n"),
            (
                b"grammar\nrule 65535 0 0\nshow\n",
                b"1 2\n0 65535 0 0 1 1 -\n",
            ),
        ];
        for (script, record) in table {
            prints(&rt, rt.alloc(), script, record)?;
        }
        Ok(())
    }

    // Wrong numbers, missing numbers, and words after the third.
    #[test]
    fn numbers(rt: HostRuntime) -> Result<(), Fail> {
        let table: [(&[u8], &str); 22] = [
            (b"plant\nrule x 0 0\nshow\n", "refused 18 11 2"),
            (b"plant\nrule  0 0 0\nshow\n", "refused 18 11 2"),
            (b"plant\nrule\nshow\n", "refused 18 10 2"),
            (b"plant\nrule \nshow\n", "refused 18 11 2"),
            (b"plant\nrule 1\nshow\n", "refused 18 12 2"),
            (b"plant\nrule 1 \nshow\n", "refused 18 13 2"),
            (b"plant\nopen 1 2\nshow\n", "refused 18 14 2"),
            (b"plant\nopen 1 2 ", "refused 18 15 2"),
            (b"plant\nrule 1 2 x\nshow\n", "refused 18 15 2"),
            (b"plant\nrule 1 -2 3\nshow\n", "refused 18 13 2"),
            (b"plant\nrule 1 +2 3\nshow\n", "refused 18 13 2"),
            (b"plant\nrule 4294967296 0 0\nshow\n", "refused 18 11 2"),
            (b"plant\nrule 1 0 4294967296\nshow\n", "refused 18 15 2"),
            (b"plant\nrule 1 0 4294967295\nshow\n", "refused 11 0 3"),
            (
                b"plant\nrule 1 99999999999999999999 0\nshow\n",
                "refused 18 13 2",
            ),
            (b"plant\nrule 1 2 3 \nshow\n", "refused 18 6 2"),
            (b"plant\nrule 1 2 3 4\nshow\n", "refused 18 6 2"),
            (b"plant\nrule 1 2 3\r\nshow\n", "refused 18 15 2"),
            (b"plant\nrule\t1 0 0\nshow\n", "refused 18 6 2"),
            (b"plant\nrules 1 0 0\nshow\n", "refused 18 6 2"),
            (b"plant\nrule 12 0 x\nshow\n", "refused 18 16 2"),
            (b"plant\nclose \nshow\n", "refused 18 6 2"),
        ];
        for (script, line) in table {
            refuses(&rt, rt.alloc(), script, line)?;
        }
        Ok(())
    }

    // What the builder refuses, and codes without a rule.
    #[test]
    fn refused_calls(rt: HostRuntime) -> Result<(), Fail> {
        let table: [(&[u8], &str); 14] = [
            (b"plant\nrule 12 0 0\nshow\n", "refused 17 12 2"),
            (b"plant\nopen 12 5 2\nshow\n", "refused 17 12 2"),
            (b"grammar\nrule 65536 0 0\nshow\n", "refused 17 65536 2"),
            (
                b"grammar\nopen 4294967295 0 0\nshow\n",
                "refused 17 4294967295 2",
            ),
            (b"plant\nclose\nshow\n", "refused 6 0 2"),
            (b"plant\nrule 1 0 0\nclose\nshow\n", "refused 6 1 3"),
            (b"plant\ntag a\nshow\n", "refused 7 0 2"),
            (b"plant\nopen 1 0 0\ntag a\nshow\n", "refused 7 1 3"),
            (b"plant\nopen 1 0 0\nshow\n", "refused 9 1 3"),
            (
                b"plant\nopen 1 0 0\nopen 2 0 0\nclose\nshow\n",
                "refused 9 1 5",
            ),
            (
                b"plant\ntext ab\nrule 1 0 1\nrule 1 2 3\nshow\n",
                "refused 11 1 5",
            ),
            (b"plant\ntext ab\nrule 1 1 0\nshow\n", "refused 11 0 4"),
            (
                b"plant\ntext \xC3\xA9\nrule 1 1 2\nshow\nmore\n",
                "refused 11 0 4",
            ),
            (b"plant\nrule 1 0 0\nshow\nmore\n", "refused 18 22 4"),
        ];
        for (script, line) in table {
            refuses(&rt, rt.alloc(), script, line)?;
        }
        Ok(())
    }

    // A line a number of times between two parts.
    fn repeated(
        heap: Global,
        front: &[u8],
        line: &[u8],
        count: usize,
        back: &[u8],
    ) -> Result<Vec<u8>, AllocError> {
        let mut script = Vec::new(heap);
        script.extend_from_slice(front)?;
        for _ in 0..count {
            script.extend_from_slice(line)?;
        }
        script.extend_from_slice(back)?;
        Ok(script)
    }

    // 512 nodes, 255 open pairs, and a tag of 255 bytes; one more of each is refused.
    #[test]
    fn limits(rt: HostRuntime) -> Result<(), Fail> {
        let heap = rt.alloc();
        let full = repeated(heap, b"plant\n", b"rule 1 0 0\n", 512, b"show\n")?;
        let listed = repeated(heap, b"512 1024\n", b"0 1 0 0 1 1 -\n", 512, b"")?;
        prints(&rt, heap, full.as_slice(), listed.as_slice())?;
        let over = repeated(heap, b"plant\n", b"rule 1 0 0\n", 513, b"show\n")?;
        refuses(&rt, heap, over.as_slice(), "refused 4 512 514")?;
        let full_first = repeated(heap, b"plant\n", b"rule 1 0 0\n", 512, b"open 12 0 0\n")?;
        refuses(&rt, heap, full_first.as_slice(), "refused 4 512 514")?;
        let deep = repeated(heap, b"plant\n", b"open 1 0 0\n", 255, b"")?;
        let closed = repeated(heap, deep.as_slice(), b"close\n", 255, b"show\n")?;
        let made = read(heap, closed.as_slice())?;
        assert!(rt;
            made.as_slice()
                .starts_with(b"255 510\n0 1 0 0 1 1 -\n1 1 0 0 1 1 -\n2 1 ")
        );
        assert!(rt;
            made.as_slice()
                .ends_with(b"\n253 1 0 0 1 1 -\n254 1 0 0 1 1 -\n")
        );
        let deeper = repeated(heap, b"plant\n", b"open 1 0 0\n", 256, b"show\n")?;
        refuses(&rt, heap, deeper.as_slice(), "refused 5 255 257")?;
        let tagged = repeated(
            heap,
            b"plant\nrule 1 0 0\ntag abc\ntag ",
            b"t",
            255,
            b"\nshow\n",
        )?;
        let record = repeated(heap, b"1 2\n0 1 0 0 1 1 =", b"t", 255, b"\n")?;
        prints(&rt, heap, tagged.as_slice(), record.as_slice())?;
        let long = repeated(
            heap,
            b"plant\nrule 1 0 0\ntag abc\ntag ",
            b"t",
            256,
            b"\nshow\n",
        )?;
        refuses(&rt, heap, long.as_slice(), "refused 8 3 4")
    }

    // Another first line, or a missing line: that one is refused where it would begin.
    #[test]
    fn first_and_missing_lines(rt: HostRuntime) -> Result<(), Fail> {
        let table: [(&[u8], &str); 17] = [
            (b"", "refused 18 0 1"),
            (b"\n", "refused 18 0 1"),
            (b"show\n", "refused 18 0 1"),
            (b"Plant\nshow\n", "refused 18 0 1"),
            (b"plant \nshow\n", "refused 18 0 1"),
            (b" plant\nshow\n", "refused 18 0 1"),
            (b"plant\r\nshow\r\n", "refused 18 0 1"),
            (b"plantgrammar\nshow\n", "refused 18 0 1"),
            (b"\xFF\nshow\n", "refused 18 0 1"),
            (b"plant", "refused 18 5 2"),
            (b"plant\n", "refused 18 6 2"),
            (b"grammar", "refused 18 7 2"),
            (b"grammar\n", "refused 18 8 2"),
            (b"plant\nnext", "refused 18 10 3"),
            (b"plant\nnext\n", "refused 18 11 3"),
            (b"plant\ntext a\nnext\ntext b", "refused 18 24 5"),
            (b"plant\ntext \xFF\n", "refused 18 13 3"),
        ];
        for (script, line) in table {
            refuses(&rt, rt.alloc(), script, line)?;
        }
        Ok(())
    }

    // Lines that are no command, and lines after `show`.
    #[test]
    fn other_lines(rt: HostRuntime) -> Result<(), Fail> {
        let table: [(&[u8], &str); 19] = [
            (b"plant\n\nshow\n", "refused 18 6 2"),
            (b"plant\nshow \n", "refused 18 6 2"),
            (b"plant\nshow\r\n", "refused 18 6 2"),
            (b"plant\nshow now\n", "refused 18 6 2"),
            (b"plant\nnext \nshow\n", "refused 18 6 2"),
            (b"plant\nnext one\nshow\n", "refused 18 6 2"),
            (b"plant\nnext\r\nshow\n", "refused 18 6 2"),
            (b"plant\ntexts\nshow\n", "refused 18 6 2"),
            (b"plant\n text a\nshow\n", "refused 18 6 2"),
            (b"plant\ntext\ta\nshow\n", "refused 18 6 2"),
            (b"plant\ntext\r\nshow\n", "refused 18 6 2"),
            (b"grammar\nplant\nshow\n", "refused 18 8 2"),
            (b"plant\nclose 1\nshow\n", "refused 18 6 2"),
            (b"plant\ntext a\nTEXT b\nshow\n", "refused 18 13 3"),
            (b"plant\nnext\n \nshow\n", "refused 18 11 3"),
            (b"plant\nshow\n\n", "refused 18 11 3"),
            (b"plant\nshow\nshow\n", "refused 18 11 3"),
            (b"plant\nshow\ntext a\nshow\n", "refused 18 11 3"),
            (b"grammar\ntext a\nshow\n\xFF", "refused 18 20 4"),
        ];
        for (script, line) in table {
            refuses(&rt, rt.alloc(), script, line)?;
        }
        Ok(())
    }

    // The text is tested at `show`: after the lines before it, and before a line after it.
    #[test]
    fn ill_formed_texts(rt: HostRuntime) -> Result<(), Fail> {
        let table: [(&[u8], &str); 11] = [
            (b"plant\ntext \xFF\nshow\n", "refused 2 0 3"),
            (b"plant\ntext a\xFFb\nshow", "refused 2 1 3"),
            (b"plant\ntext ab\nnext\ntext \xC3\nshow\n", "refused 2 3 5"),
            (b"plant\ntext \xE2\x82\nnext\nshow\n", "refused 2 0 4"),
            (b"plant\ntext \xED\xA0\x80\nshow\n", "refused 2 0 3"),
            (b"plant\ntext ab\xC0\x80\nshow\n", "refused 2 2 3"),
            (b"plant\ntext \xF4\x90\x80\x80\nshow\n", "refused 2 0 3"),
            (b"plant\ntext \xA9\ntext \xC3\nshow\n", "refused 2 0 4"),
            (b"plant\ntext \xFF\nshow\nmore\n", "refused 2 0 3"),
            (b"plant\ntext \xFF\nshow \n", "refused 18 13 3"),
            (b"plant\ntext \xFF\nmore\nshow\n", "refused 18 13 3"),
        ];
        for (script, line) in table {
            refuses(&rt, rt.alloc(), script, line)?;
        }
        Ok(())
    }

    // 32,768 bytes are read; of more, only the size is looked at.
    #[test]
    fn sizes(rt: HostRuntime) -> Result<(), Fail> {
        let heap = rt.alloc();
        let full = repeated(heap, b"plant\ntext ", b"a", 32751, b"\nshow\n")?;
        prints(&rt, heap, full.as_slice(), b"0 0\n")?;
        let unended = repeated(heap, b"plant\ntext ", b"a", 32752, b"\nshow")?;
        prints(&rt, heap, unended.as_slice(), b"0 0\n")?;
        let over = repeated(heap, b"plant\ntext ", b"a", 32752, b"\nshow\n")?;
        refuses(&rt, heap, over.as_slice(), "refused 18 32768 3")?;
        refuses(
            &rt,
            heap,
            repeated(heap, b"", b"\n", 32768, b"")?.as_slice(),
            "refused 18 0 1",
        )?;
        refuses(
            &rt,
            heap,
            repeated(heap, b"", b"\n", 32769, b"")?.as_slice(),
            "refused 18 32768 32769",
        )?;
        refuses(
            &rt,
            heap,
            repeated(heap, b"", b"a", 32768, b"")?.as_slice(),
            "refused 18 0 1",
        )?;
        refuses(
            &rt,
            heap,
            repeated(heap, b"", b"a", 32768, b"\n")?.as_slice(),
            "refused 18 32768 1",
        )?;
        refuses(
            &rt,
            heap,
            repeated(heap, b"plant\nshow\n", b"\n", 40000, b"")?.as_slice(),
            "refused 18 32768 32760",
        )?;
        refuses(
            &rt,
            heap,
            repeated(heap, b"plant\ntext \xFF\n", b"a", 32755, b"")?.as_slice(),
            "refused 18 13 3",
        )
    }

    #[test]
    fn words_of_a_line(rt: HostRuntime) {
        let table: [(Word, usize, &[u8]); 10] = [
            (keyword(b""), 0, b""),
            (keyword(b"open 12 3"), 0, b"open"),
            (keyword(b" open"), 0, b""),
            (number(b"open 12 3", 5), 5, b"12"),
            (number(b"open 12 3", 8), 8, b"3"),
            (number(b"open 12 3", 7), 7, b""),
            (number(b"open 12 3", 10), 9, b""),
            (rest(b"text  a b", 5), 5, b" a b"),
            (rest(b"text", 4), 4, b""),
            (rest(b"text", 5), 4, b""),
        ];
        for (word, place, bytes) in table {
            let at = match word {
                Word::Keyword { place, .. } => place,
                Word::Number { place, .. } => place,
                Word::Rest { place, .. } => place,
            };
            assert_eq!(rt; at, place);
            assert!(rt; word.bytes() == bytes);
        }
    }
}
