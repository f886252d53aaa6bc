//! Blank and torn lines, which have no content.
ghost use Rattle.std.specs.Prelude.{◌≡◌, length};
ghost use Rattle.std.specs.List.{list_all};
ghost use Rattle.causal_merge.specs.TornLines.{is_blank_byte, is_blank, is_torn_byte, begins_torn, byte_count, has_few_quotes, closes_within, is_torn};

fn is_blank_byte(byte: u8) -> bool
    ensures { result ≡ is_blank_byte byte }
{
    byte == b' ' || byte == b'\t' || byte == b'\r'
}

/// Whether a line has only spaces, tabs and carriage returns.
pub(crate) fn is_blank(bytes: &[u8]) -> bool
    ensures { result ≡ is_blank bytes.now }
{
    bytes.iter().all(|byte| is_blank_byte(*byte))
}

#[tactic(auto, unfolding(crate::specs::TornLines::is_torn_byte))]
fn is_torn_byte(byte: u8) -> bool
    ensures { result ≡ is_torn_byte byte }
{
    (b'a' <= byte && byte <= b'z')
        || (b'0' <= byte && byte <= b'9')
        || byte == b' '
        || byte == b'['
        || byte == b']'
        || byte == b'"'
        || byte == b','
}

#[tactic(auto, unfolding(crate::specs::TornLines::begins_torn))]
fn begins_torn(bytes: &[u8]) -> bool
    ensures { result ≡ begins_torn bytes.now }
{
    !bytes.is_empty() && bytes[0] == b'[' && (bytes.len() == 1 || bytes[1] == b'"')
}

fn byte_count(byte: u8, bytes: &[u8]) -> usize
    ensures { result ≡ byte_count byte bytes.now }
{
    let mut count = 0;
    for other in bytes {
        if *other == byte {
            count += 1;
        }
    }
    count
}

fn are_torn_bytes(bytes: &[u8]) -> bool
    ensures { result ≡ list_all is_torn_byte bytes.now }
{
    bytes.iter().all(|byte| is_torn_byte(*byte))
}

#[tactic(auto, unfolding(crate::specs::TornLines::has_few_quotes))]
fn has_few_quotes(bytes: &[u8]) -> bool
    ensures { result ≡ has_few_quotes bytes.now }
{
    byte_count(b'"', bytes) <= 2
}

// whether no bracket is open after one of the bytes
#[tactic(auto, using(crate::proofs::TornLemmas::closing_steps))]
fn closes(bytes: &[u8]) -> bool
    ensures { result ≡ closes_within (length bytes.now) bytes.now }
{
    let mut opening: usize = 0;
    let mut closing: usize = 0;
    for byte in bytes {
        if *byte == b'[' {
            opening += 1;
        }
        if *byte == b']' {
            closing += 1;
        }
        if opening <= closing {
            return true;
        }
    }
    false
}

/// Whether a line that is not a JSON value is the beginning of one that a kill cut short. It scans the line at most
/// three times.
pub(crate) fn is_torn(bytes: &[u8]) -> bool
    ensures { result ≡ is_torn bytes.now }
{
    begins_torn(bytes) && are_torn_bytes(bytes) && has_few_quotes(bytes) && !closes(bytes)
}
