// The values of the lines that were read so far.

ghost use Rattle.std.specs.Prelude.{◌≡◌, ◌⊎◌, ◌≤◌, ◌<◌, [], IfErr, IfOk, OnOk, length, true, false};
ghost use Rattle.speak_setup.specs.Forms.{key_text};
ghost use Rattle.speak_setup.specs.Parts.{AddsValue, IsComplete, IsIncomplete, found_values};
ghost use Rattle.speak_setup.specs.Setups.{most, names_of};
ghost use Rattle.speak_setup.specs.declared.key.Key.{Key};
ghost use Rattle.speak_setup.specs.declared.setup.SetupFault.TheVariants.{Memory, Missing};

use crate::key::Key;
use crate::setup::{MOST_RULES, Need, Setup, SetupFault};
use norm_base::Name;
use std::alloc::{AllocError, Global};

/// The values of the entries that were read so far.
#[derive(Drop)]
pub(crate) struct Found {
    pub(crate) tokenizer: Option<Name>,
    pub(crate) tokenizer_rules: Vec<Name>,
    pub(crate) verbalizer: Option<Name>,
    pub(crate) verbalizer_rules: Vec<Name>,
}

impl Found {
    /// No values.
    pub(crate) fn new(alloc: Global) -> Found
        ensures { (key : Key) → found_values result key ≡ [] }
    {
        Found {
            tokenizer: None,
            tokenizer_rules: Vec::new(alloc),
            verbalizer: None,
            verbalizer_rules: Vec::new(alloc),
        }
    }

    /// Whether a key came as often as it may.
    pub(crate) fn is_full(&self, key: Key) -> bool
        ensures full { result ≡ true → most key ≤ length (found_values self.now key) }
        ensures free { result ≡ false → length (found_values self.now key) < most key }
    {
        match key {
            Key::TokenizerGrammar => self.tokenizer.is_some(),
            Key::TokenizerRule => MOST_RULES <= self.tokenizer_rules.len(),
            Key::VerbalizerGrammar => self.verbalizer.is_some(),
            Key::VerbalizerRule => MOST_RULES <= self.verbalizer_rules.len(),
        }
    }

    /// Adds a value of a key.
    pub(crate) fn add(&mut self, key: Key, value: Name) -> Result<(), AllocError>
        requires { length (found_values self.old key) < most key }
        ensures { OnOk result (AddsValue self.old self.new key value) }
    {
        match key {
            Key::TokenizerGrammar => self.tokenizer = Some(value),
            Key::TokenizerRule => self.tokenizer_rules.push(value)?,
            Key::VerbalizerGrammar => self.verbalizer = Some(value),
            Key::VerbalizerRule => self.verbalizer_rules.push(value)?,
        }
        Ok(())
    }

    /// The setup of these values, where no key is missing that has to come.
    pub(crate) fn complete(self, alloc: Global, need: Need) -> Result<Setup, SetupFault>
        ensures setup { IfOk result (λ setup. IsComplete need (found_values self) (names_of setup)) }
        ensures fault { IfErr result (λ fault. IsIncomplete need (found_values self) fault) }
    {
        let Found {
            tokenizer,
            tokenizer_rules,
            verbalizer,
            verbalizer_rules,
        } = self;
        let Some(tokenizer) = tokenizer else {
            return Err(missing(alloc, Key::TokenizerGrammar));
        };
        if tokenizer_rules.is_empty() {
            return Err(missing(alloc, Key::TokenizerRule));
        }
        if need == Need::Both && verbalizer.is_none() {
            return Err(missing(alloc, Key::VerbalizerGrammar));
        }
        if need == Need::Both && verbalizer_rules.is_empty() {
            return Err(missing(alloc, Key::VerbalizerRule));
        }
        Ok(Setup {
            tokenizer,
            tokenizer_rules,
            verbalizer,
            verbalizer_rules,
        })
    }
}

/// The fault that a key is missing, or want of memory for its text.
fn missing(alloc: Global, key: Key) -> SetupFault
    ensures { (result ≡ Missing (key_text key)) ⊎ (result ≡ Memory) }
{
    match Name::new(alloc, key.text()) {
        Ok(key) => SetupFault::Missing { key },
        Err(_) => SetupFault::Memory,
    }
}
