//! The masking keys of a client.

use rand_chacha::ChaCha20Rng;
use rand_core::{Rng, SeedableRng};
use std::io;
use std::random::RandomSource;
use tungstenite::MaskKeys;

/// Keys of a generator that was seeded once by the system. RFC 6455, section 5.3, wants keys that
/// nobody can guess, and a fresh one for each frame: a call of the system for each would cost more
/// than the frame, and might fail in the middle of a connection.
#[derive(Drop)]
pub struct ClientKeys {
    generator: ChaCha20Rng,
}

impl ClientKeys {
    /// Keys with a seed of 32 bytes from this source. It fails where the source does.
    pub fn seeded_by<R: RandomSource>(source: &R) -> io::Result<ClientKeys> {
        let mut seed = [0; 32];
        source.fill_bytes(&mut seed)?;
        Ok(ClientKeys {
            generator: ChaCha20Rng::from_seed(seed),
        })
    }
}

impl MaskKeys for ClientKeys {
    fn next_key(&mut self) -> [u8; 4] {
        self.generator.next_u32().to_ne_bytes()
    }
}
