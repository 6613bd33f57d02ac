//! A law of the limits, for the crates above. The function does nothing: its contract is the law.
ghost use Rattle.std.specs.Prelude.{◌≡◌, ◌+◌, ◌*◌};
ghost use Rattle.cog_fetch.specs.declared.taking.TheConstants.{ANSWER_LIMIT};

/// States the most bytes that are taken of an answer: a head of 4,096, and 65 blocks of 16,384.
pub fn law_answer_limit_is()
    ensures { ANSWER_LIMIT ≡ 4096 + 65 * 16384 }
{}
