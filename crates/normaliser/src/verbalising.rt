//! The words of tokens.

ghost use Rattle.std.specs.Prelude.{◌≡◌, ◌↔◌, All, IfNone, IfOk, IfSome, IsTrue, OnErr, OnOk};
ghost use Rattle.token_record.specs.Fields.{fields_of};
ghost use Rattle.token_record.specs.Meaning.{token_tree, token_trees};
ghost use Rattle.token_record.specs.Writable.{TokenHasNoZero};
ghost use Rattle.field_orders.specs.Orders.{IsOrderable, Orders};
ghost use Rattle.normaliser.specs.Loads.{verbaliser_of};
ghost use Rattle.normaliser.specs.Parts.{IsOutput, IsPut, IsTold, with_words};
ghost use Rattle.normaliser.specs.Searches.{Did, Searched, Stopped};
ghost use Rattle.normaliser.specs.Words.{HasTooMany, IsFirst, NoneIs, TokensSay};
ghost use Rattle.shared_cascade.specs.Callers.{IsReady};

use crate::faults::LineFault;
use crate::normalisers::Normaliser;
use crate::searching::output_of;
use field_orders::orders;
use least_path::Room;
use shared_cascade::Caller;
use std::alloc::{AllocError, Global};
use token_record::{Record, Token, field_count};

/// How many fields a record may have, at all levels, that may stand in any order.
const MOST_FIELDS: u64 = 10;

impl Normaliser {
    /// The words of tokens, or the first fault among them.
    pub(crate) fn words_of(
        &self,
        alloc: Global,
        caller: &mut Caller,
        room: &mut Room,
        tokens: &[Token],
    ) -> Result<Vec<u8>, LineFault>
        requires ready { IsReady self.now.shared caller.old }
        requires no_zero { All (λ t. TokenHasNoZero (token_tree t)) tokens.now }
        ensures told { IsTold (TokensSay (verbaliser_of self.now) (token_trees tokens.now)) result }
        ensures ready { IsReady self.now.shared caller.new }
        ensures searched { Did self.now.shared caller.old caller.new result }
    {
        if let Some(token) = first_too_large(tokens) {
            return Err(LineFault::TooManyFields { token });
        }
        self.joined(alloc, caller, room, tokens)
    }

    /// The words of tokens, joined by single spaces, or the first token without words.
    fn joined(
        &self,
        alloc: Global,
        caller: &mut Caller,
        room: &mut Room,
        tokens: &[Token],
    ) -> Result<Vec<u8>, LineFault>
        requires ready { IsReady self.now.shared caller.old }
        requires no_zero { All (λ t. TokenHasNoZero (token_tree t)) tokens.now }
        requires few { NoneIs HasTooMany (token_trees tokens.now) }
        ensures told { IsTold (TokensSay (verbaliser_of self.now) (token_trees tokens.now)) result }
        ensures ready { IsReady self.now.shared caller.new }
        ensures searched { Did self.now.shared caller.old caller.new result }
    {
        let mut words = Vec::new(alloc);
        for (i, token) in tokens.iter().enumerate() {
            if !self.put_words(alloc, caller, room, token, &mut words)? {
                return Err(LineFault::NoWords {
                    token: i as u64 + 1,
                });
            }
        }
        Ok(words)
    }

    /// Puts the words of a token behind others, and answers whether it has any.
    fn put_words(
        &self,
        alloc: Global,
        caller: &mut Caller,
        room: &mut Room,
        token: &Token,
        words: &mut Vec<u8>,
    ) -> Result<bool, AllocError>
        requires ready { IsReady self.now.shared caller.old }
        requires no_zero { TokenHasNoZero (token_tree token.now) }
        requires few { HasTooMany (token_tree token.now) → ⊥ }
        ensures put { IfOk result (IsPut (verbaliser_of self.now) (token_tree token.now) words.old.items words.new.items) }
        ensures ready { IsReady self.now.shared caller.new }
        ensures searched { OnOk result (Searched self.now.shared caller.old caller.new) }
        ensures stopped { OnErr result (Stopped self.now.shared caller.old caller.new) }
    {
        match token {
            Token::Spoken(own) => {
                join(words, own)?;
                Ok(true)
            }
            Token::Silent => Ok(true),
            Token::Class(record) => match self.verbalised(alloc, caller, room, record)? {
                Some(own) => {
                    join(words, &own)?;
                    Ok(true)
                }
                None => Ok(false),
            },
        }
    }

    /// The output of the verbaliser's least reading over all texts of a record, if there is one.
    fn verbalised(
        &self,
        alloc: Global,
        caller: &mut Caller,
        room: &mut Room,
        r: &Record,
    ) -> Result<Option<Vec<u8>>, AllocError>
        requires ready { IsReady self.now.shared caller.old }
        requires orderable { IsOrderable r.now }
        ensures output { IfOk result (IsOutput (verbaliser_of self.now) (Orders r.now.class r.now.keep (fields_of r.now.fields.items))) }
        ensures ready { IsReady self.now.shared caller.new }
        ensures searched { OnOk result (Searched self.now.shared caller.old caller.new) }
        ensures stopped { OnErr result (Stopped self.now.shared caller.old caller.new) }
    {
        let texts = orders(alloc, r)?;
        output_of(alloc, &self.shared, caller, &self.verbaliser, &texts, room)
    }
}

/// The number, from 1, of the first token with more fields in any order than are allowed.
fn first_too_large(tokens: &[Token]) -> Option<u64>
    ensures found { IfSome result (IsFirst HasTooMany (token_trees tokens.now)) }
    ensures none { IfNone result (NoneIs HasTooMany (token_trees tokens.now)) }
{
    for (i, token) in tokens.iter().enumerate() {
        if is_too_large(token) {
            return Some(i as u64 + 1);
        }
    }
    None
}

/// Whether it has more fields in any order than are allowed.
fn is_too_large(token: &Token) -> bool
    ensures { IsTrue result ↔ HasTooMany (token_tree token.now) }
{
    match token {
        Token::Class(record) => !record.keep && field_count(record) > MOST_FIELDS,
        _ => false,
    }
}

/// Puts words behind others, with a space between. No words change nothing.
fn join(words: &mut Vec<u8>, own: &[u8]) -> Result<(), AllocError>
    ensures { OnOk result (words.new.items ≡ with_words words.old.items own.now) }
{
    if own.is_empty() {
        return Ok(());
    }
    if !words.is_empty() {
        words.push(b' ')?;
    }
    words.extend_from_slice(own)?;
    Ok(())
}
