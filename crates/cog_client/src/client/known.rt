//! The bytes of the file that a client has already.
ghost use Rattle.cog_client.specs.Client.{Knows};
ghost use Rattle.cog_client.specs.Known.{has_bytes};

use crate::client::Client;
use cog_reader::law_lengths_are_known;
use known_fields::KnownBytes;

#[tactic(auto, unfolding(crate::specs::Client::blocks_of, crate::specs::Client::revision_of, crate::specs::Client::Knows, crate::specs::Known::has_bytes))]
impl KnownBytes for Client {
    ghost is_of = { λ c f. Knows f c };

    ghost is_known = { has_bytes };

    fn copy_known(&self, first: u64, out: &mut [u8]) -> bool {
        law_lengths_are_known();
        let Some(source) = &self.source else {
            return false;
        };
        if first + out.len() as u64 > source.complete {
            return false;
        }
        self.cache.copy_present(first, out)
    }
}
