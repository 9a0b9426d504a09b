//! Drawn bytes from a ChaCha20 stream.

ghost use Rattle.std.specs.Prelude.{◌≡◌, ◌+◌, ◌++◌, ◌%◌, ◌^◌};
ghost use Rattle.rand_chacha.specs.ChaCha.{of_seed};
ghost use Rattle.run_all.specs.Words.{two_words};

use rand_chacha::ChaCha20Rng;
use rand_core::SeedableRng;
use rand_core::utils::NextWord;
use std::marker::Model;
use zw_base::Draw;

/// The words of a ChaCha20 stream, two at a time. Contracts see the key, the stream and the place of the next word.
#[derive(Drop)]
pub struct ChaChaDraw {
    generator: ChaCha20Rng,
}

impl Model for ChaChaDraw {
    ghost use Rattle.rand_chacha.specs.ChaCha.{ChaCha};

    ghost Value = { ChaCha };

    ghost view = { λ d. d.generator };
}

impl ChaChaDraw {
    /// The generator with the key of that seed, at the first word of stream 0.
    pub fn new(seed: [u8; 32]) -> ChaChaDraw
        ensures { result ≡ of_seed seed }
    {
        ChaChaDraw {
            generator: ChaCha20Rng::from_seed(seed),
        }
    }

    /// The word at the generator's place and the one after it, each with its low byte first. The place moves by two.
    pub fn draw(&mut self) -> [u8; 8]
        ensures words { result ≡ two_words self.old }
        ensures moved { self.new ≡ record self.old { word_pos = (self.old.word_pos + 2) % 2 ^ 68 } }
    {
        let first = self.generator.next_word();
        let second = self.generator.next_word();
        join(first.to_le_bytes(), second.to_le_bytes())
    }
}

impl Draw for ChaChaDraw {
    ghost use Rattle.std.specs.Prelude.{◌≡◌, ◌+◌, ◌%◌, ◌^◌};
    ghost use Rattle.run_all.specs.Words.{two_words};

    ghost draws = { λ old drawn new. (drawn ≡ two_words old) × (new ≡ record old { word_pos = (old.word_pos + 2) % 2 ^ 68 }) };

    fn next(&mut self) -> [u8; 8] {
        self.draw()
    }
}

// Two words of four bytes, one after the other.
fn join(first: [u8; 4], second: [u8; 4]) -> [u8; 8]
    ensures { result ≡ first ++ second }
{
    [
        first[0], first[1], first[2], first[3], second[0], second[1], second[2], second[3],
    ]
}
