// The fixed words that stand second in a line.
#![tactic(auto, using(crate::proofs::Naming::same_false), unfolding(crate::specs::Kinds::picked, crate::specs::Kinds::storage_kind, crate::specs::Kinds::pack_kind, crate::specs::Kinds::look_kind, crate::specs::Kinds::field_kind))]

ghost use Rattle.script.specs.Kinds.{storage_kind, pack_kind, look_kind, field_kind};

use crate::reason::Reason;
use crate::take::FromWord;
use drive::defect::Field;

#[derive(Clone, Copy)]
pub(crate) enum StorageKind {
    Plain,
    Keyed,
    File,
}

#[derive(Clone, Copy)]
pub(crate) enum PackKind {
    Plain,
    Chained,
    Fresh,
}

#[derive(Clone, Copy)]
pub(crate) enum LookKind {
    Card,
    Status,
    Words,
    Track,
    Places,
}

impl FromWord for StorageKind {
    type Value = StorageKind;

    ghost said = { storage_kind };

    fn from_word(word: &str) -> Result<StorageKind, Reason> {
        match word {
            "plain" => Ok(StorageKind::Plain),
            "keyed" => Ok(StorageKind::Keyed),
            "file" => Ok(StorageKind::File),
            _ => Err(Reason::UnknownWord),
        }
    }
}

impl FromWord for PackKind {
    type Value = PackKind;

    ghost said = { pack_kind };

    fn from_word(word: &str) -> Result<PackKind, Reason> {
        match word {
            "plain" => Ok(PackKind::Plain),
            "chained" => Ok(PackKind::Chained),
            "fresh" => Ok(PackKind::Fresh),
            _ => Err(Reason::UnknownWord),
        }
    }
}

impl FromWord for LookKind {
    type Value = LookKind;

    ghost said = { look_kind };

    fn from_word(word: &str) -> Result<LookKind, Reason> {
        match word {
            "card" => Ok(LookKind::Card),
            "status" => Ok(LookKind::Status),
            "words" => Ok(LookKind::Words),
            "track" => Ok(LookKind::Track),
            "places" => Ok(LookKind::Places),
            _ => Err(Reason::UnknownWord),
        }
    }
}

impl FromWord for Field {
    type Value = Field;

    ghost said = { field_kind };

    fn from_word(word: &str) -> Result<Field, Reason> {
        match word {
            "id" => Ok(Field::Id),
            "data" => Ok(Field::Data),
            _ => Err(Reason::NoField),
        }
    }
}
