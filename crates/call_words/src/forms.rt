//! The forms of the words.
ghost use Rattle.std.specs.Prelude.{◌≡◌, ℕ, List, map, IfOk, IfSome, IfNone, IsErrOf, MatchResult};
ghost use Rattle.std.specs.String.{string_bytes};
ghost use Rattle.tile_model.specs.declared.Letter.{Letter};
ghost use Rattle.tile_model.specs.WalkTexts.{walk_text};
ghost use Rattle.short_numbers.specs.Numbers.{IsNumber};
ghost use Rattle.call_words.specs.Tasks.{Task, Ask, HaveNoForm};
ghost use Rattle.call_words.specs.Tasks.{AreNotOfRun, AreNotOfLearn, AreNotOfMerge};
ghost use Rattle.call_words.specs.Tasks.{AreNotOfLog, AreNotOfVerify};
ghost use Rattle.call_words.specs.Forms.{task_of};

use crate::options::{Named, Origin, are_options, read_cells, read_origin, value_in};
use short_numbers::read_number;
use std::alloc::Global;
use thiserror::Error;
use walk_words::{Walk, WalkFault, read_walk};

/// A form of the words, with what it names.
#[derive(Drop)]
pub enum Form<'a> {
    /// `kind TESS K LETTERS`
    Kind {
        tess: &'a str,
        kind: u32,
        walk: Walk,
    },
    /// `check TESS RULES`
    Check {
        tess: &'a str,
        rules: &'a str,
    },
    /// `run TESS K`, with `--rules RULES` or `--cells N` or neither.
    Run {
        tess: &'a str,
        kind: u32,
        rules: Origin<'a>,
    },
    /// `learn TESS`, with `--cells N` and `--out OUT` in any order, each at most once.
    Learn {
        tess: &'a str,
        /// How many cells the teacher may make, 1 to 1,000,000.
        cells: u32,
        /// The file in which the rules are stored, where one is named.
        out: Named<'a>,
    },
    /// `merge TESS RULES OUT`
    Merge {
        tess: &'a str,
        rules: &'a str,
        /// The file in which the merged rules are stored.
        out: &'a str,
    },
    /// `log TESS RULES K U W`
    Log {
        tess: &'a str,
        rules: &'a str,
        kind: u32,
        u: Walk,
        w: Walk,
    },
    /// `verify TESS K U W LOG`
    Verify {
        tess: &'a str,
        kind: u32,
        u: Walk,
        w: Walk,
        /// The file that holds the log.
        log: &'a str,
    },
}

/// Why words are not read.
#[derive(Clone, Copy, Debug, PartialEq, Eq, Error)]
pub enum WordsFault {
    /// They are in no form.
    #[error("the words are in no form")]
    Usage,
    /// There is no memory for what they say.
    #[error("no memory for the words")]
    Memory,
}

/// The walk that a word writes.
fn read_letters(alloc: Global, letters: &str) -> Result<Walk, WordsFault>
    ensures ok { IfOk result (λ walk. walk_text walk ≡ letters.now) }
    ensures usage { IsErrOf result WordsFault.Usage
        → (walk : List Letter) → walk_text walk ≡ letters.now → ⊥ }
{
    match read_walk(alloc, letters.as_bytes()) {
        Ok(walk) => Ok(walk),
        Err(WalkFault::Text) => Err(WordsFault::Usage),
        Err(WalkFault::Memory) => Err(WordsFault::Memory),
    }
}

/// The kind and the walk that two words write.
fn read_start(alloc: Global, k: &str, letters: &str) -> Result<(u32, Walk), WordsFault>
    ensures ok { IfOk result (λ start. IsNumber k.now start.0 × (walk_text start.1 ≡ letters.now)) }
    ensures usage { IsErrOf result WordsFault.Usage → (n : ℕ) (walk : List Letter)
        → IsNumber k.now n → walk_text walk ≡ letters.now → ⊥ }
    ensures complete { (n : ℕ) (walk : List Letter)
        → IsNumber k.now n → walk_text walk ≡ letters.now
        → MatchResult result
        (λ start. (start.0 ≡ n) × (start.1 ≡ walk)) (λ e. e ≡ WordsFault.Memory) }
{
    let Some(kind) = read_number(k.as_bytes()) else {
        return Err(WordsFault::Usage);
    };
    match read_walk(alloc, letters.as_bytes()) {
        Ok(walk) => Ok((kind, walk)),
        Err(WalkFault::Text) => Err(WordsFault::Usage),
        Err(WalkFault::Memory) => Err(WordsFault::Memory),
    }
}

/// Reads the words after the program's name. Words that are in no form are refused by `Usage`.
pub fn read_words<'a>(alloc: Global, words: &'a [String]) -> Result<Form<'a>, WordsFault>
    ensures ok { IfOk result (λ form. Ask (map string_bytes words.now) (task_of form)) }
    ensures usage { IsErrOf result WordsFault.Usage → HaveNoForm (map string_bytes words.now) }
    ensures complete { (task : Task) → Ask (map string_bytes words.now) task
        → MatchResult result (λ form. task_of form ≡ task) (λ e. e ≡ WordsFault.Memory) }
{
    match words {
        [form, tess, k, letters] if form.as_str() == "kind" => {
            match read_start(alloc, k.as_str(), letters.as_str()) {
                Ok((kind, walk)) => Ok(Form::Kind {
                    tess: tess.as_str(),
                    kind,
                    walk,
                }),
                Err(fault) => Err(fault),
            }
        }
        [form, tess, rules] if form.as_str() == "check" => Ok(Form::Check {
            tess: tess.as_str(),
            rules: rules.as_str(),
        }),
        _ => match read_run(words) {
            Some(form) => Ok(form),
            None => match read_learn(words) {
                Some(form) => Ok(form),
                None => match read_merge(words) {
                    Some(form) => Ok(form),
                    None => match read_log(alloc, words) {
                        Ok(form) => Ok(form),
                        Err(WordsFault::Memory) => Err(WordsFault::Memory),
                        Err(WordsFault::Usage) => match read_verify(alloc, words) {
                            Ok(form) => Ok(form),
                            Err(fault) => Err(fault),
                        },
                    },
                },
            },
        },
    }
}

/// Reads words of the form `run`.
fn read_run<'a>(words: &'a [String]) -> Option<Form<'a>>
    ensures some { IfSome result (λ form. Ask (map string_bytes words.now) (task_of form)) }
    ensures none { IfNone result (AreNotOfRun (map string_bytes words.now)) }
{
    let [form, tess, k, options @ ..] = words else {
        return None;
    };
    if form.as_str() != "run" {
        return None;
    }
    if !are_options(options, "--rules", "--cells") {
        return None;
    }
    let kind = read_number(k.as_str().as_bytes())?;
    let rules = read_origin(value_in(options, "--rules"), value_in(options, "--cells"))?;
    Some(Form::Run {
        tess: tess.as_str(),
        kind,
        rules,
    })
}

/// Reads words of the form `learn`.
fn read_learn<'a>(words: &'a [String]) -> Option<Form<'a>>
    ensures some { IfSome result (λ form. Ask (map string_bytes words.now) (task_of form)) }
    ensures none { IfNone result (AreNotOfLearn (map string_bytes words.now)) }
{
    let [form, tess, options @ ..] = words else {
        return None;
    };
    if form.as_str() != "learn" {
        return None;
    }
    if !are_options(options, "--cells", "--out") {
        return None;
    }
    let cells = read_cells(value_in(options, "--cells"))?;
    Some(Form::Learn {
        tess: tess.as_str(),
        cells,
        out: value_in(options, "--out"),
    })
}

/// Reads words of the form `merge`.
fn read_merge<'a>(words: &'a [String]) -> Option<Form<'a>>
    ensures some { IfSome result (λ form. Ask (map string_bytes words.now) (task_of form)) }
    ensures none { IfNone result (AreNotOfMerge (map string_bytes words.now)) }
{
    let [form, tess, rules, out] = words else {
        return None;
    };
    if form.as_str() != "merge" {
        return None;
    }
    Some(Form::Merge {
        tess: tess.as_str(),
        rules: rules.as_str(),
        out: out.as_str(),
    })
}

/// Reads words of the form `log`.
fn read_log<'a>(alloc: Global, words: &'a [String]) -> Result<Form<'a>, WordsFault>
    ensures ok { IfOk result (λ form. Ask (map string_bytes words.now) (task_of form)) }
    ensures usage { IsErrOf result WordsFault.Usage → AreNotOfLog (map string_bytes words.now) }
{
    let [form, tess, rules, k, u, w] = words else {
        return Err(WordsFault::Usage);
    };
    if form.as_str() != "log" {
        return Err(WordsFault::Usage);
    }
    let (kind, u) = read_start(alloc, k.as_str(), u.as_str())?;
    let w = read_letters(alloc, w.as_str())?;
    Ok(Form::Log {
        tess: tess.as_str(),
        rules: rules.as_str(),
        kind,
        u,
        w,
    })
}

/// Reads words of the form `verify`.
fn read_verify<'a>(alloc: Global, words: &'a [String]) -> Result<Form<'a>, WordsFault>
    ensures ok { IfOk result (λ form. Ask (map string_bytes words.now) (task_of form)) }
    ensures usage { IsErrOf result WordsFault.Usage → AreNotOfVerify (map string_bytes words.now) }
{
    let [form, tess, k, u, w, log] = words else {
        return Err(WordsFault::Usage);
    };
    if form.as_str() != "verify" {
        return Err(WordsFault::Usage);
    }
    let (kind, u) = read_start(alloc, k.as_str(), u.as_str())?;
    let w = read_letters(alloc, w.as_str())?;
    Ok(Form::Verify {
        tess: tess.as_str(),
        kind,
        u,
        w,
        log: log.as_str(),
    })
}
