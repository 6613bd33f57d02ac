//! The fields that a level has, as the table of a directory has them.
ghost use Rattle.std.specs.Prelude.{◌≡◌, true, false, MatchResult};
ghost use Rattle.std.specs.List.{AllPass};
ghost use Rattle.tiff_dir.specs.Profile.{profile};
ghost use Rattle.tiff_dir.specs.Table.{allows, entries_of, keeps, IsEntryFault, IsFaultOfEntries};

use crate::FileFault;
use crate::rule::{Rule, Typing, ValueCount};
use crate::table::{DirectoryEntry, Table};
use crate::tags::{
    BITS_PER_SAMPLE, COMPRESSION, IMAGE_LENGTH, IMAGE_WIDTH, NEW_SUBFILE_TYPE,
    PHOTOMETRIC_INTERPRETATION, PLANAR_CONFIGURATION, SAMPLE_FORMAT, SAMPLES_PER_PIXEL,
    TILE_BYTE_COUNTS, TILE_LENGTH, TILE_OFFSETS, TILE_WIDTH,
};

/// NewSubfileType, which is looked at in every directory.
pub const SUBFILE: Rule = Rule {
    tag: NEW_SUBFILE_TYPE,
    typing: Typing::Long,
    count: ValueCount::One,
    required: false,
};

/// The fields that are read of a level, in the order of their tags.
const PROFILE: [Rule; 13] = [
    SUBFILE,
    Rule {
        tag: IMAGE_WIDTH,
        typing: Typing::ShortOrLong,
        count: ValueCount::One,
        required: true,
    },
    Rule {
        tag: IMAGE_LENGTH,
        typing: Typing::ShortOrLong,
        count: ValueCount::One,
        required: true,
    },
    Rule {
        tag: BITS_PER_SAMPLE,
        typing: Typing::Short,
        count: ValueCount::Samples,
        required: true,
    },
    Rule {
        tag: COMPRESSION,
        typing: Typing::Short,
        count: ValueCount::One,
        required: true,
    },
    Rule {
        tag: PHOTOMETRIC_INTERPRETATION,
        typing: Typing::Short,
        count: ValueCount::One,
        required: true,
    },
    Rule {
        tag: SAMPLES_PER_PIXEL,
        typing: Typing::Short,
        count: ValueCount::One,
        required: false,
    },
    Rule {
        tag: PLANAR_CONFIGURATION,
        typing: Typing::Short,
        count: ValueCount::One,
        required: false,
    },
    Rule {
        tag: TILE_WIDTH,
        typing: Typing::ShortOrLong,
        count: ValueCount::One,
        required: true,
    },
    Rule {
        tag: TILE_LENGTH,
        typing: Typing::ShortOrLong,
        count: ValueCount::One,
        required: true,
    },
    Rule {
        tag: TILE_OFFSETS,
        typing: Typing::Long,
        count: ValueCount::Tiles,
        required: true,
    },
    Rule {
        tag: TILE_BYTE_COUNTS,
        typing: Typing::ShortOrLong,
        count: ValueCount::Tiles,
        required: true,
    },
    Rule {
        tag: SAMPLE_FORMAT,
        typing: Typing::Short,
        count: ValueCount::Samples,
        required: false,
    },
];

/// Returns whether the entry has a type that the rule names. It also has to have the rule's count, unless that depends
/// on samples or tiles.
pub(crate) fn is_allowed(rule: Rule, entry: DirectoryEntry) -> bool
    ensures { result ≡ allows rule entry }
{
    let typed = match rule.typing {
        Typing::Short => entry.kind == 3,
        Typing::Long => entry.kind == 4,
        Typing::ShortOrLong => entry.kind == 3 || entry.kind == 4,
        Typing::Ascii => entry.kind == 2,
        Typing::Double => entry.kind == 12,
    };
    let counted = match rule.count {
        ValueCount::One => entry.count == 1,
        ValueCount::Samples | ValueCount::Tiles => true,
        ValueCount::Exactly(n) => entry.count == n,
        ValueCount::Multiple(n) => n > 0 && entry.count > 0 && entry.count % n == 0,
    };
    typed && counted
}

impl Table<'_> {
    /// Checks that the table has the field of the rule as the rule says. Fails with `FieldType`, or with `Missing`.
    pub fn check_rule(&self, rule: Rule) -> Result<(), FileFault>
        ensures { MatchResult result (λ _. keeps (entries_of self.now) rule ≡ true) (IsEntryFault rule (entries_of self.now)) }
    {
        match self.find(rule.tag) {
            Some(entry) if is_allowed(rule, entry) => Ok(()),
            Some(_) => Err(FileFault::FieldType(rule.tag)),
            None if rule.required => Err(FileFault::Missing(rule.tag)),
            None => Ok(()),
        }
    }

    /// Checks that the table has the field of each rule as the rule says. Fails with the first fault.
    fn check_rules(&self, rules: &[Rule]) -> Result<(), FileFault>
        ensures { MatchResult result (λ _. AllPass (keeps (entries_of self.now)) rules.now) (IsFaultOfEntries rules.now
            (entries_of self.now)) }
    {
        for rule in rules {
            self.check_rule(*rule)?;
        }
        Ok(())
    }

    /// Checks that the table has each field of the profile as the profile says. Counts of samples and tiles aren't
    /// looked at. Fails with the first fault.
    #[tactic(auto, unfolding(crate::specs::Profile::profile))]
    pub fn check_profile(&self) -> Result<(), FileFault>
        ensures { MatchResult result (λ _. AllPass (keeps (entries_of self.now)) profile) (IsFaultOfEntries profile (entries_of self.now)) }
    {
        self.check_rules(&PROFILE)
    }
}
