//! The nonces that are shown between node 1 and another node.

ghost use Rattle.std.specs.Prelude.{◌≡◌, ◌+◌, ◌<◌, ◌^◌, Option};

use crate::Heading;

/// The command class Security 0.
const SECURITY: u8 = 0x98;

/// Its command Nonce Report.
const NONCE_REPORT: u8 = 0x80;

/// How many bytes a Nonce Report has at least: class, command and nonce.
const NONCE_REPORT_LEN: usize = 10;

/// What is counted of the nonces between node 1 and another node.
#[derive(Clone, Copy, Debug)]
pub struct Nonces {
    shown: u64,
    outward: Option<[u8; 8]>,
    homeward: Option<[u8; 8]>,
}

ghost use Rattle.air_frames.specs.Nonces.{nonce_in, is_news};

/// The nonce that a payload shows, where it is a Nonce Report.
pub fn nonce_of(payload: &[u8]) -> Option<[u8; 8]>
    ensures { result ≡ nonce_in payload.now }
{
    if payload.len() >= NONCE_REPORT_LEN && payload[0] == SECURITY && payload[1] == NONCE_REPORT {
        let mut nonce = [0; 8];
        nonce.copy_from_slice(&payload[2..NONCE_REPORT_LEN]);
        return Some(nonce);
    }
    None
}

/// Whether a nonce is the first, or another than the one before.
pub fn is_new(last: Option<[u8; 8]>, nonce: &[u8; 8]) -> bool
    ensures { result ≡ is_news last nonce.now }
{
    match last {
        Some(before) => before != *nonce,
        None => true,
    }
}

impl Nonces {
    ghost use Rattle.air_frames.specs.Nonces.{none_shown, counting, last_of};

    /// None was shown.
    pub fn new() -> Nonces
        ensures { result ≡ none_shown }
    {
        Nonces {
            shown: 0,
            outward: None,
            homeward: None,
        }
    }

    /// How many new nonces have been shown.
    pub fn shown(&self) -> u64
        ensures { result ≡ self.now.shown }
    {
        self.shown
    }

    /// The nonce that was shown last in that direction.
    fn last(&self, heading: Heading) -> Option<[u8; 8]>
        ensures { result ≡ last_of self.now heading }
    {
        match heading {
            Heading::Outward => self.outward,
            Heading::Homeward => self.homeward,
        }
    }

    /// Counts the nonce that a payload shows, where it is a new one.
    pub fn show(&mut self, heading: Heading, payload: &[u8])
        requires { self.old.shown + 1 < 2 ^ 64 }
        ensures { self.new ≡ counting self.old heading payload.now }
    {
        let Some(nonce) = nonce_of(payload) else {
            return;
        };
        if is_new(self.last(heading), &nonce) {
            self.shown += 1;
        }
        match heading {
            Heading::Outward => self.outward = Some(nonce),
            Heading::Homeward => self.homeward = Some(nonce),
        }
    }
}
