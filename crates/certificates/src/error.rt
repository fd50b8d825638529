// What the checks of certificates and of authors refuse, and the numbers that the host sees (01), in 01's
// order: error.rs.
ghost use Rattle.std.specs.Prelude.{◌≡◌, Err};
ghost use Rattle.certificates.specs.Error.{code, number, number_of, author_number};

use crate::numbers::Place;

// Why a certificate is refused.
#[derive(Clone, Copy, Debug, PartialEq, Eq)]
pub enum CertificateError {
    // The first signer that is named again.
    AuthorityReuse(Place),
    // The first signer without stake.
    UnknownAuthority(Place),
    RequiresQuorum,
    InvalidSignature,
    // The bytes end before the list of signers does.
    Cut,
}

// Why an author is refused.
#[derive(Clone, Copy, Debug, PartialEq, Eq)]
pub enum AuthorError {
    UnknownAuthority(Place),
    InvalidSignature,
}

// Why an event is not done: it is too old, it waits, or it is refused.
#[derive(Clone, Copy, Debug, PartialEq, Eq)]
pub enum Refusal {
    Stale = 1,
    WaitParent = 2,
    WaitPayload = 3,
    // Unknown kind, wrong body length, verdict or flag out of range.
    BadRecord = 16,
    BadSetup = 17,
    // The table or the output is too small, or the table too large.
    NoRoom = 18,
    // A round above the limit.
    RoundTooHigh = 19,
    // A signer list above the limit.
    ListTooLong = 20,
    WrongLeader = 21,
    UnknownAuthority = 22,
    InvalidSignature = 23,
    AuthorityReuse = 24,
    QcRequiresQuorum = 25,
    TcRequiresQuorum = 26,
    InvalidPayload = 27,
    // A new digest and no empty slot.
    TableFull = 28,
    // A new tally and none free.
    TalliesFull = 29,
    // The block's b0 or a walked parent is absent.
    AncestorAbsent = 30,
    // A walked parent's round is not below its child's.
    RoundNotBelow = 31,
    // A LOOPBACK with an empty TC.
    EmptyTc = 32,
    NotStarted = 33,
    StartedAgain = 34,
}

// How an event is answered.
pub type Answer = Result<(), Refusal>;

// The number of an answer: 0 where the event is done.
pub fn number(answer: Answer) -> u16
    ensures { result ≡ number answer }
{
    match answer {
        Ok(()) => 0,
        Err(refusal) => refusal as u16,
    }
}

impl CertificateError {
    // What the event of a refused certificate is answered, where `quorum` says that it has none.
    pub fn refusal(self, quorum: Refusal) -> Refusal
        ensures { code result ≡ number_of (Err self) (code quorum) }
    {
        match self {
            CertificateError::AuthorityReuse(_) => Refusal::AuthorityReuse,
            CertificateError::UnknownAuthority(_) => Refusal::UnknownAuthority,
            CertificateError::RequiresQuorum => quorum,
            CertificateError::InvalidSignature => Refusal::InvalidSignature,
            CertificateError::Cut => Refusal::BadRecord,
        }
    }
}

impl From<AuthorError> for Refusal {
    ghost from_gives = { λ e r. code r ≡ author_number (Err e) };

    fn from(e: AuthorError) -> Refusal {
        match e {
            AuthorError::UnknownAuthority(_) => Refusal::UnknownAuthority,
            AuthorError::InvalidSignature => Refusal::InvalidSignature,
        }
    }
}
