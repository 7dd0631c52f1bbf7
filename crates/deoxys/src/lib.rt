// Sealing and opening in place, for any suite number and any bytes: the entry routines of the crate's `src/lib.rs`.

#![tactic(auto)]

ghost use Rattle.std.specs.Prelude.{◌≡◌, length};
ghost use Rattle.modes.specs.Answers.{answered};
ghost use Rattle.suites.specs.Suites.{refusal};
ghost use Rattle.deoxys.specs.Entry.{sealed, opened, SealAllows, OpenAllows};

// What sealing answers, here and below as C has it: a number of document 01, the tag, and the block cipher calls made.
#[repr(C)]
#[derive(Clone, Copy)]
pub struct Sealed {
    pub number: u8,
    pub tag: [u8; 16],
    pub rows: usize,
}

// What opening answers.
#[repr(C)]
#[derive(Clone, Copy)]
pub struct Opened {
    pub number: u8,
    pub rows: usize,
}

// Opening's own refusals. Numbers: each is answered in one place, and 7 with its rows, so an enum would be made and taken apart there.
const WRONG_TAG_LENGTH: u8 = 6;

const WRONG_TAG: u8 = 7;

// The ciphertext and its tag, where nothing is refused.
fn protect(suite: u8, key: &[u8], nonce: &[u8], ad: &[u8], buffer: &mut [u8]) -> modes::Tagged
    requires { refusal suite (length key.now) (length nonce.now) (length ad.now) (length buffer.old) ≡ 0 }
    ensures value { result ≡ answered (sealed suite key.now nonce.now ad.now buffer.old) }
    ensures buffer_after { buffer.new ≡ (sealed suite key.now nonce.now ad.now buffer.old).text }
{
    let k = tweakey::precompute_subkeys(key);
    if suite <= 2 {
        return deoxys_i::seal(k, nonce.try_into().unwrap(), ad, buffer);
    }
    deoxys_ii::seal(k, nonce.try_into().unwrap(), ad, buffer)
}

// Seals the buffer in place, or refuses and leaves it as it was.
pub fn seal(suite: u8, key: &[u8], nonce: &[u8], ad: &[u8], buffer: &mut [u8]) -> Sealed
    ensures { SealAllows suite key.now nonce.now ad.now buffer.old
        (record { answer = result; buffer = buffer.new }) }
{
    if let Err(refused) = suites::refusal(suite, key.len(), nonce.len(), ad.len(), buffer.len()) {
        return Sealed {
            number: refused.number(),
            tag: [0; 16],
            rows: 0,
        };
    }
    let modes::Tagged { tag, count } = protect(suite, key, nonce, ad, buffer);
    Sealed {
        number: 0,
        tag,
        rows: count.rows,
    }
}

// The message and its computed tag, where nothing is refused yet.
fn recover(
    suite: u8,
    key: &[u8],
    nonce: &[u8],
    ad: &[u8],
    buffer: &mut [u8],
    tag: [u8; 16],
) -> modes::Tagged
    requires { refusal suite (length key.now) (length nonce.now) (length ad.now) (length buffer.old) ≡ 0 }
    ensures value { result ≡ answered (opened suite key.now nonce.now ad.now buffer.old tag) }
    ensures buffer_after { buffer.new ≡ (opened suite key.now nonce.now ad.now buffer.old tag).text }
{
    let k = tweakey::precompute_subkeys(key);
    if suite <= 2 {
        return deoxys_i::open(k, nonce.try_into().unwrap(), ad, buffer);
    }
    deoxys_ii::open(k, nonce.try_into().unwrap(), ad, buffer, tag)
}

// Opens the buffer in place. A wrong tag leaves zeros, every other refusal the buffer as it was.
pub fn open(suite: u8, key: &[u8], nonce: &[u8], ad: &[u8], buffer: &mut [u8], tag: &[u8]) -> Opened
    ensures { OpenAllows suite key.now nonce.now ad.now buffer.old tag.now
        (record { answer = result; buffer = buffer.new }) }
{
    if let Err(refused) = suites::refusal(suite, key.len(), nonce.len(), ad.len(), buffer.len()) {
        return Opened {
            number: refused.number(),
            rows: 0,
        };
    }
    if tag.len() != 16 {
        return Opened {
            number: WRONG_TAG_LENGTH,
            rows: 0,
        };
    }
    let given = octets::read_block(tag, 0);
    let tagged = recover(suite, key, nonce, ad, buffer, given);
    let rows = tagged.count.rows;
    if octets::same_block(given, tagged.tag) {
        return Opened { number: 0, rows };
    }
    octets::clear(buffer);
    Opened {
        number: WRONG_TAG,
        rows,
    }
}
