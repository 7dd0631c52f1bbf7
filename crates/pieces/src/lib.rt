// Sealing Deoxys-I by pieces, each in place: the running state is a value, and every operation hands it back.

#![tactic(auto)]

ghost use Rattle.std.specs.Prelude.{◌≡◌, ◌+◌, ◌%◌, eqb, ltb, length};
ghost use Rattle.octets.specs.Octets.{pick};
ghost use Rattle.suites.specs.Numbers.{answer_number};
ghost use Rattle.suites.specs.Suites.{limit};
ghost use Rattle.pieces.specs.ByPieces.{void, begin_refusal, sound, state_refusal, take_refusal, took, piece_text};
ghost use Rattle.pieces.specs.ByPieces.{BeginAllows, TakeAllows, FinishAllows};
ghost use Rattle.pieces.specs.Refusing.{Refuses};

use deoxys_bc::Count;
use suites::{LIMIT, Refused};
use tweakey::Subkeys;

// A state's number and stage are bytes that C hands over, and any of them has a meaning (docs/DECISIONS.md), so they are no enums; nor is what
// refuses a call, which is begin's number as it came, or 5 or 8.
// The stages. Whatever is above FINISHED is finished too.
const OPEN: u8 = 0;

const CLOSED: u8 = 1;

const FINISHED: u8 = 2;

const TOO_LONG: u8 = 5;

const NO_MORE: u8 = 8;

// The rows of so many bytes of data and of message as are allowed.
const MOST_ROWS: usize = 131072;

// What has been taken so far comes to, here and in the answers below as C has it: begin's number, the stage, the expanded key, the nonce, Auth, the checksum, the bytes taken and the
// block cipher calls made. It holds key material.
#[repr(C)]
#[derive(Clone, Copy, PartialEq, Eq)]
pub struct Pieces {
    pub number: u8,
    pub stage: u8,
    pub keys: Subkeys,
    pub nonce: [u8; 8],
    pub auth: [u8; 16],
    pub checksum: [u8; 16],
    pub total: usize,
    pub count: Count,
}

// What taking a piece answers: the state, and a number.
#[repr(C)]
#[derive(Clone, Copy)]
pub struct Taken {
    pub pieces: Pieces,
    pub number: u8,
}

// What the finish answers: the state, a number, the tag, and the block cipher calls made since the begin.
#[repr(C)]
#[derive(Clone, Copy)]
pub struct Finished {
    pub pieces: Pieces,
    pub number: u8,
    pub tag: [u8; 16],
    pub rows: usize,
}

// The state of a refused begin, which answers every call with its number.
#[tactic(auto, unfolding(octets::specs::Octets::zero_block))]
fn void(number: u8) -> Pieces
    ensures { result ≡ void number }
{
    Pieces {
        number,
        stage: OPEN,
        keys: Subkeys {
            bytes: [0u8; 272],
            rounds: 0,
        },
        nonce: [0u8; 8],
        auth: [0u8; 16],
        checksum: [0u8; 16],
        total: 0,
        count: Count { rows: 0 },
    }
}

// Deoxys-II needs two passes: its suites are none here.
#[tactic(auto, unfolding(crate::specs::ByPieces::begin_refusal))]
fn begin_refusal(suite: u8, key: usize, nonce: usize, ad: usize) -> Result<(), Refused>
    ensures { answer_number result ≡ begin_refusal suite key nonce ad }
{
    if 2 < suite {
        return Err(Refused::Suite);
    }
    suites::refusal(suite, key, nonce, ad, 0)
}

// Nothing taken yet, and the associated data authenticated; or refused.
pub fn begin(suite: u8, key: &[u8], nonce: &[u8], ad: &[u8]) -> Pieces
    ensures { BeginAllows suite key.now nonce.now ad.now result }
{
    if let Err(refused) = begin_refusal(suite, key.len(), nonce.len(), ad.len()) {
        return void(refused.number());
    }
    let keys = tweakey::precompute_subkeys(key);
    let tally = modes::compute_ad_tag(keys, ad);
    // A local of its own: from field to field the checker covers not.
    let auth = tally.sum;
    let mut own_nonce = [0u8; 8];
    own_nonce.copy_from_slice(nonce);
    Pieces {
        number: 0,
        stage: OPEN,
        keys,
        nonce: own_nonce,
        auth,
        checksum: [0u8; 16],
        total: 0,
        count: tally.count,
    }
}

// The stage after a piece of so many bytes.
fn stage_after(bytes: usize) -> u8
    ensures { result ≡ pick (eqb (bytes % 16) 0) 0 1 }
{
    if bytes % 16 == 0 { OPEN } else { CLOSED }
}

// 5 where the total would be above the limit. No sum that could wrap: what is left under the limit is compared.
fn length_refusal(total: usize, bytes: usize) -> Result<(), u8>
    ensures { Refuses (pick (ltb limit (total + bytes)) 5 0) result }
{
    if LIMIT < bytes || LIMIT - bytes < total {
        return Err(TOO_LONG);
    }
    Ok(())
}

impl Pieces {
    // What holds of a state that a begin and its pieces gave. C can make any: a wiped one has no rounds, and would leave a message nearly as
    // it is.
    fn is_sound(self) -> bool
        ensures { result ≡ sound self }
    {
        self.total <= LIMIT
            && self.count.rows <= MOST_ROWS
            && (self.keys.rounds == 14 || self.keys.rounds == 16)
    }

    // Begin's number, or 8 past this stage or where the state is not sound.
    #[tactic(auto, unfolding(crate::specs::ByPieces::state_refusal))]
    fn state_refusal(self, last: u8) -> Result<(), u8>
        ensures { Refuses (state_refusal self last) result }
    {
        if self.number != 0 {
            return Err(self.number);
        }
        if last < self.stage || !self.is_sound() {
            return Err(NO_MORE);
        }
        Ok(())
    }

    // What the state refuses comes before the length.
    #[tactic(auto, unfolding(crate::specs::ByPieces::take_refusal))]
    fn take_refusal(self, bytes: usize) -> Result<(), u8>
        ensures { Refuses (take_refusal self bytes) result }
    {
        self.state_refusal(OPEN)?;
        length_refusal(self.total, bytes)
    }

    // A piece that nothing refuses. The checksum is of the message, so it comes before the enciphering.
    fn took(mut self, piece: &mut [u8]) -> Pieces
        requires { take_refusal self (length piece.old) ≡ 0 }
        ensures value { result ≡ took self piece.old }
        ensures piece_after { piece.new ≡ piece_text self piece.old }
    {
        let bytes = piece.len();
        let sum = deoxys_i::checksum(self.checksum, piece);
        let first = self.total / 16;
        let count = deoxys_i::crypt_message(
            self.keys,
            &self.nonce,
            first,
            piece,
            false,
            self.count,
        );
        self.checksum = sum;
        self.count = count;
        self.total += bytes;
        self.stage = stage_after(bytes);
        self
    }

    // Enciphers a piece in place, or refuses and leaves it and the state as they stood.
    pub fn take(mut self, piece: &mut [u8]) -> Taken
        ensures { TakeAllows self piece.old (record { answer = result; piece = piece.new }) }
    {
        if let Err(number) = self.take_refusal(piece.len()) {
            return Taken {
                pieces: self,
                number,
            };
        }
        self = self.took(piece);
        Taken {
            pieces: self,
            number: 0,
        }
    }

    // The tag of all that was taken, and every row counted; or refused.
    pub fn finish(mut self) -> Finished
        ensures { FinishAllows self result }
    {
        if let Err(number) = self.state_refusal(CLOSED) {
            return Finished {
                pieces: self,
                number,
                tag: [0u8; 16],
                rows: 0,
            };
        }
        let modes::Tagged { tag, count } = deoxys_i::tag(
            self.keys,
            &self.nonce,
            self.total,
            self.checksum,
            self.auth,
            self.count,
        );
        self.stage = FINISHED;
        self.count = count;
        Finished {
            pieces: self,
            number: 0,
            tag,
            rows: count.rows,
        }
    }
}
