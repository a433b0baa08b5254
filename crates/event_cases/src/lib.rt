// Whole, long and damaged event files, held to tables of what each must give.
#![tactic(auto)]

ghost use Rattle.std.specs.Prelude.{◌<◌};

#[cfg(test)]
mod inputs;

#[cfg(test)]
mod tests {
    use event_file::block::check_block;
    use event_file::fault::Fault;
    use event_file::reader::Reader;
    use std::process::Abort;
    use std::test::Fail;

    // A refusal by its number, and by the numbers of its block and its entry.
    #[derive(Clone, Copy, PartialEq, Eq, Debug)]
    struct Noted {
        number: u8,
        block: usize,
        entry: usize,
    }

    impl From<Fault> for Noted {
        fn from(fault: Fault) -> Noted {
            Noted {
                number: fault.refusal.number(),
                block: fault.place.block(),
                entry: fault.place.entry(),
            }
        }
    }

    // What the reading of a file comes to: its events and blanks, its refusals, and the last of these.
    #[derive(Clone, Copy, PartialEq, Eq, Debug, Default)]
    struct Tally {
        events: usize,
        blanks: usize,
        refusals: usize,
        last: Option<Noted>,
    }

    impl Tally {
        // The tally with one more refusal.
        fn with_fault(self, fault: Fault) -> Tally {
            Tally {
                refusals: self.refusals.saturating_add(1),
                last: Some(Noted::from(fault)),
                ..self
            }
        }
    }

    // Three events: a commitment, a cabling by a third party, and a launch.
    const EVENTS: &[u8; 90] = b"\
E\x01\x33\xc6\x3d\x00\x00\x00\x01\x00\x00\x00\x04\x00one             \
S\x01\x33\xc6\x3e\x00\x00\x00\x07\x00\x00\x01\x2c\x01two             \
L\x01\x33\xc6\x3f\x00\x00\x00\x00\x00\x00\x00\x00\x00three           ";

    // A byte put at an offset of the sample block, the two bytes of the block's check then, and what must be read: the
    // events, the blanks, and the number and entry of the one refusal, if there is one. Each check is the first 510 bytes
    // modulo 65,521, by whole numbers of any size.
    const CASES: [(usize, u8, u8, u8, usize, usize, Option<(u8, usize)>); 26] = [
        // the sample as it is
        (0, b'E', 64, 212, 3, 14, None),
        // an unknown letter
        (0, b'Z', 163, 155, 2, 14, Some((21, 1))),
        // the digit 0 is no blank
        (0, b'0', 221, 254, 2, 14, Some((21, 1))),
        // a blank that is not all zero, which is no blank for the entries after it
        (0, 0, 215, 152, 2, 14, Some((22, 1))),
        // a raise
        (0, b'A', 192, 68, 3, 14, None),
        // an opening
        (0, b'P', 226, 66, 3, 14, None),
        // a launch with numbers
        (0, b'L', 97, 193, 2, 14, Some((23, 1))),
        // a commitment with form 1
        (13, 1, 200, 168, 2, 14, Some((23, 1))),
        // a site with form 2
        (43, 2, 172, 173, 2, 14, Some((23, 2))),
        // a site with form 0
        (43, 0, 212, 236, 3, 14, None),
        // a launch with an operator, in its high byte
        (65, 1, 197, 1, 2, 14, Some((23, 3))),
        // a launch with a rate, in its low byte
        (72, 1, 252, 133, 2, 14, Some((23, 3))),
        // a launch with form 1
        (73, 1, 128, 140, 2, 14, Some((23, 3))),
        // a label byte below 32
        (14, 31, 86, 94, 2, 14, Some((23, 1))),
        // the lowest label byte
        (14, 32, 66, 231, 3, 14, None),
        // the highest label byte
        (29, 126, 154, 39, 3, 14, None),
        // a label byte above 126
        (29, 127, 217, 186, 2, 14, Some((23, 1))),
        // the entry after a bad blank is read
        (30, 0, 101, 52, 2, 14, Some((22, 2))),
        // an unknown letter where a blank was
        (90, 1, 136, 108, 3, 13, Some((21, 4))),
        // a blank with a date
        (91, 1, 41, 29, 3, 13, Some((22, 4))),
        // a blank with a label
        (119, 1, 129, 245, 3, 13, Some((22, 4))),
        // a known letter after a blank
        (120, b'E', 29, 101, 3, 13, Some((22, 5))),
        // the same at the end of the block
        (480, b'E', 136, 200, 3, 13, Some((22, 17))),
        // the last byte of the last entry
        (509, 1, 64, 213, 3, 13, Some((22, 17))),
        // a date of any size
        (1, 255, 233, 44, 3, 14, None),
        // an operator of any size
        (5, 255, 156, 34, 3, 14, None),
    ];

    // The start of a long file of sample blocks, and what must be read: events, blanks and the number of the refusal, if
    // there is one.
    const LENGTHS: [(usize, usize, usize, Option<u8>); 10] = [
        (0, 0, 0, None),
        (1, 0, 0, Some(19)),
        (511, 0, 0, Some(19)),
        (512, 3, 14, None),
        (513, 0, 0, Some(19)),
        (1024, 6, 28, None),
        (65535, 0, 0, Some(19)),
        (65536, 384, 1792, None),
        (65537, 0, 0, Some(19)),
        (66048, 0, 0, Some(19)),
    ];

    // The tally of a file.
    fn tally_of(bytes: &[u8]) -> Tally {
        let mut tally = Tally::default();
        let reader = match Reader::open(bytes) {
            Ok(reader) => reader,
            Err(fault) => return tally.with_fault(fault),
        };
        for entry in reader {
            match entry.map(|entry| entry.event) {
                Ok(Some(_)) => tally.events = tally.events.saturating_add(1),
                Ok(None) => tally.blanks = tally.blanks.saturating_add(1),
                Err(fault) => tally = tally.with_fault(fault),
            }
        }
        tally
    }

    // The three events and fourteen blanks, with a byte put at an offset and a check.
    fn sample(offset: usize, byte: u8, high: u8, low: u8) -> [u8; 512] {
        let mut block = [0; 512];
        block[0..90].copy_from_slice(EVENTS);
        if offset < 510 {
            block[offset] = byte;
        }
        block[510] = high;
        block[511] = low;
        block
    }

    // Each damaged entry is refused by its number, and the others are read.
    fn damaged_entries(rt: &impl Abort) {
        for (offset, byte, high, low, events, blanks, refused) in CASES {
            let expected = Tally {
                events,
                blanks,
                refusals: usize::from(refused.is_some()),
                last: refused.map(|(number, entry)| Noted {
                    number,
                    block: 1,
                    entry,
                }),
            };
            assert_eq!(rt; tally_of(&sample(offset, byte, high, low)), expected);
        }
    }

    // A change of some bits of one byte is found by the check.
    fn changed_byte(rt: &impl Abort, whole: &[u8; 512], offset: usize, byte: u8)
        requires { offset < 512 }
    {
        let mut block = *whole;
        for bits in [1, 16, 128, 255] {
            block[offset] = byte ^ bits;
            assert!(rt; check_block(&block).is_err());
        }
    }

    // A change of any one byte is found by the check.
    fn changed_bytes(rt: &impl Abort) {
        let block = sample(0, b'E', 64, 212);
        assert!(rt; check_block(&block).is_ok());
        for (offset, byte) in block.iter().enumerate() {
            changed_byte(rt, &block, offset, *byte);
        }
        assert!(rt; check_block(&block).is_ok());
    }

    // Sample blocks, one after another.
    fn repeat(block: &[u8; 512], file: &mut [u8]) {
        for part in file.chunks_exact_mut(512) {
            part.copy_from_slice(block);
        }
    }

    // A long file is read up to its end or to the first block that fails its check, or not at all.
    fn long_files(rt: &impl Abort) {
        let mut file = [0; 66048];
        repeat(&sample(0, b'E', 64, 212), &mut file);
        for (length, events, blanks, refused) in LENGTHS {
            assert!(rt; length <= file.len());
            let expected = Tally {
                events,
                blanks,
                refusals: usize::from(refused.is_some()),
                last: refused.map(|number| Noted {
                    number,
                    block: 0,
                    entry: 0,
                }),
            };
            assert_eq!(rt; tally_of(&file[0..length]), expected);
        }
        file[65535] ^= 1;
        let last_block = Tally {
            events: 381,
            blanks: 1778,
            refusals: 1,
            last: Some(Noted {
                number: 20,
                block: 128,
                entry: 0,
            }),
        };
        assert_eq!(rt; tally_of(&file[0..65536]), last_block);
        file[1023] ^= 1;
        let second_block = Tally {
            events: 3,
            blanks: 14,
            refusals: 1,
            last: Some(Noted {
                number: 20,
                block: 2,
                entry: 0,
            }),
        };
        assert_eq!(rt; tally_of(&file[0..65536]), second_block);
    }

    // A reader is a value: a copy and a clone of it read on from where it stood, each by itself.
    #[test]
    fn copies_read_on(rt: HostRuntime) -> Result<(), Fail> {
        let block = sample(0, b'E', 64, 212);
        let mut reader = Reader::open(&block).ok().ok_or("a reader")?;
        let first = reader.next_entry();
        let mut copied = reader;
        let mut cloned = reader.clone()?;
        let second = reader.next_entry();
        assert!(&rt; first != second);
        assert_eq!(&rt; copied.next_entry(), second);
        assert_eq!(&rt; cloned.next_entry(), second);
        Ok(())
    }

    #[test]
    fn files_read_as_the_tables_say(rt: HostRuntime) {
        damaged_entries(&rt);
        changed_bytes(&rt);
        long_files(&rt);
    }
}
