// Words of a line: the longest runs of bytes that are no blanks.
ghost use Rattle.std.specs.Prelude.{◌≡◌};
ghost use Rattle.requests.specs.Words.{blank, word, after_word};

// Whether a byte separates words. A carriage return does, so that lines may end in one.
const fn is_blank(byte: u8) -> bool
    ensures value { result ≡ blank byte }
{
    byte == b' ' || byte == b'\t' || byte == b'\r'
}

/// The first word, which is empty where only blanks are left, and what follows it.
pub fn cut_word(line: &[u8]) -> (&[u8], &[u8])
    ensures first { result.0.now ≡ word line.now }
    ensures rest { result.1.now ≡ after_word line.now }
{
    let blanks = line.iter().take_while(|byte| is_blank(**byte)).count();
    let tail = &line[blanks..];
    let end = tail.iter().take_while(|byte| !is_blank(**byte)).count();
    tail.split_at(end)
}
