//! Laws of the definitions, for the crates above. Each function does nothing: its contract is the law.
ghost use Rattle.std.specs.Prelude.{◌≡◌, ℕ, List, [], None, IfSome, IsSome, length};
ghost use Rattle.tiff_dir.specs.Needs.{IsEndOf};
ghost use Rattle.tiff_dir.specs.Query.{needs};
ghost use Rattle.cog_reader.specs.Reader.{file_length_of, outcome_of, query_of, to_come, ReaderAgrees, ReaderState};
ghost use Rattle.cog_reader.specs.declared.ahead.TheConstants.{MAX_BLOCKS};
ghost use Rattle.cog_reader.specs.Going.{LooksAtOneRange};

use tiff_dir::law_what_comes;

/// States that what a reader still needs for its query is the end of what the query needs of the file.
pub fn law_end_is_wanted()
    ensures { (r : ReaderState) (f : List ℕ) → ReaderAgrees r f → IfSome (query_of r) (λ q. IsEndOf (to_come r f) (needs f q)) }
{
    law_what_comes();
}

/// States that a reader needs nothing more of the file where no query is asked, or its query is answered.
pub fn law_nothing_comes()
    ensures unasked { (r : ReaderState) (f : List ℕ) → query_of r ≡ None → to_come r f ≡ [] }
    ensures answered { (r : ReaderState) (f : List ℕ) → IsSome (outcome_of r) → to_come r f ≡ [] }
{}

/// States that a file with which a reader agrees has the length that the reader was made with.
pub fn law_lengths_are_known()
    ensures { (r : ReaderState) (f : List ℕ) → ReaderAgrees r f → length f ≡ file_length_of r }
{}

/// States how many blocks one request asks for at most: 65.
pub fn law_most_blocks_are()
    ensures { MAX_BLOCKS ≡ 65 }
{}

/// States that a request that looks no block ahead asks for missing blocks of one range alone.
pub fn law_looks_at_one_range()
    ensures { LooksAtOneRange }
{}
