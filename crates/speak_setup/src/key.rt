ghost use Rattle.std.specs.Prelude.{◌≡◌};
ghost use Rattle.speak_setup.specs.Forms.{key_text};

/// What a line of a setup can give a value.
#[derive(Clone, Copy, Debug, PartialEq, Eq)]
pub(crate) enum Key {
    TokenizerGrammar,
    TokenizerRule,
    VerbalizerGrammar,
    VerbalizerRule,
}

impl Key {
    pub(crate) fn text(self) -> &'static [u8]
        ensures { result.now ≡ key_text self }
    {
        match self {
            Key::TokenizerGrammar => b"tokenizer_grammar",
            Key::TokenizerRule => b"tokenizer_rule",
            Key::VerbalizerGrammar => b"verbalizer_grammar",
            Key::VerbalizerRule => b"verbalizer_rule",
        }
    }
}
