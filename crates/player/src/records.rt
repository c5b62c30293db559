// Reads the records of a script. A record has 24 bytes: two mark bytes, a code, a spare byte, and five
// words of 32 bits, low byte first, that are the call's arguments in order.
ghost use Rattle.std.specs.Prelude.{◌≡◌};
ghost use Rattle.player.specs.Decoded.{fault_number, words_of, call_of, with_spare, decoded, read};

use kernel::calls::Call;

// The question that a record fails, in the order in which they are asked, with the number that a line gives it.
#[derive(Clone, Copy, Debug, PartialEq, Eq)]
pub enum BadRecord {
    Short = 18,
    Mark = 19,
    Code = 20,
    Spare = 21,
}

impl BadRecord {
    pub fn number(self) -> u32
        ensures { result ≡ fault_number self }
    {
        self as u32
    }
}

// The five words of a record.
fn words_in(bytes: &[u8; 20]) -> [u32; 5]
    ensures { result ≡ words_of bytes.now }
{
    let ([first, second, third, fourth, fifth], _) = bytes.as_chunks::<4>() else {
        unreachable!()
    };
    [
        u32::from_le_bytes(*first),
        u32::from_le_bytes(*second),
        u32::from_le_bytes(*third),
        u32::from_le_bytes(*fourth),
        u32::from_le_bytes(*fifth),
    ]
}

// A code is a number of a byte with gaps, so it is decided here, and the spare byte is asked about only where the code has a call.
fn call_in(code: u8, spare: u8, bytes: &[u8; 20]) -> Result<Call, BadRecord>
    ensures { result ≡ with_spare spare (call_of code bytes.now) }
{
    let [first, second, third, fourth, fifth] = words_in(bytes);
    match code {
        1..=10 | 12 if spare != 0 => Err(BadRecord::Spare),
        1 => Ok(Call::Create {
            task: first,
            priority: second,
        }),
        2 => Ok(Call::Delete { task: first }),
        3 => Ok(Call::ChangePriority {
            task: first,
            priority: second,
        }),
        4 => Ok(Call::Hold { task: first }),
        5 => Ok(Call::Release { task: first }),
        6 => Ok(Call::SetFlags {
            task: first,
            bits: second,
        }),
        7 => Ok(Call::TestFlags { bits: first }),
        8 => Ok(Call::Claim),
        9 => Ok(Call::Drop { packet: first }),
        10 => Ok(Call::Send {
            address: first.cast_signed(),
            packet: second,
            kind: third,
            first: fourth,
            second: fifth,
        }),
        12 => Ok(Call::Wait),
        _ => Err(BadRecord::Code),
    }
}

// The call of the first record, and the bytes after it.
pub fn decode(bytes: &[u8]) -> Result<(Call, &[u8]), BadRecord>
    ensures { read result ≡ decoded bytes.now }
{
    match bytes {
        _ if bytes.len() < 24 => Err(BadRecord::Short),
        [0x4B, 0x43, code, spare, rest @ ..] => {
            let (words, more) = rest.split_first_chunk::<20>().unwrap();
            Ok((call_in(*code, *spare, words)?, more))
        }
        _ => Err(BadRecord::Mark),
    }
}
