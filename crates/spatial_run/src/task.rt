// What the words ask for.
ghost use Rattle.std.specs.Prelude.{◌≡◌, map};
ghost use Rattle.std.specs.Option.{option_map};
ghost use Rattle.spatial_run.specs.Tasks.{task_of, indexes_of, one_word, two_words};
ghost use Rattle.spatial_run.specs.EndingViews.{task_as};

use geo_base::IndexSet;

/// What a call is to do.
#[derive(Clone, Copy)]
pub enum Task {
    /// Makes the device an empty store with these indexes.
    Format(IndexSet),
    /// Runs a script on the store that is there.
    Serial,
    /// Makes the device an empty store with these indexes, and runs a script on it.
    Fresh(IndexSet),
}

// Which indexes a word declares.
fn indexes_of(word: &str) -> Option<IndexSet>
    ensures { result ≡ indexes_of word.now }
{
    match word {
        "none" => IndexSet::of_bits(0),
        "dhvb" => IndexSet::of_bits(4),
        _ => None,
    }
}

fn one_word(word: &str) -> Option<Task>
    ensures { option_map task_as result ≡ one_word word.now }
{
    match word {
        "serial" => Some(Task::Serial),
        _ => None,
    }
}

fn two_words(word: &str, indexes: &str) -> Option<Task>
    ensures { option_map task_as result ≡ two_words word.now indexes.now }
{
    match word {
        "format" => match indexes_of(indexes) {
            Some(indexes) => Some(Task::Format(indexes)),
            None => None,
        },
        "fresh" => match indexes_of(indexes) {
            Some(indexes) => Some(Task::Fresh(indexes)),
            None => None,
        },
        _ => None,
    }
}

/// The task of the words, if they are those of one.
pub(crate) fn task_of(words: &[&str]) -> Option<Task>
    ensures { option_map task_as result ≡ task_of (map (λ w. w.now) words.now) }
{
    match words {
        [word] => one_word(word),
        [word, indexes] => two_words(word, indexes),
        _ => None,
    }
}
