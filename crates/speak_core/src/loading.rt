// From the files of a shelf to the plan that they ask for.

ghost use Rattle.std.specs.Prelude.{◌≡◌, ◌<◌, ◌≤◌, ◌++◌, All, IfErr, IfOk, IfSome, Some, length, slice_get};
ghost use Rattle.normaliser.specs.Loads.{CanBeBuilt};
ghost use Rattle.normaliser.specs.Searches.{IsNewCallerOf, places_of};
ghost use Rattle.speak_setup.specs.Setups.{HasNames, HasVerbalizer, IsNamed, most_rules, names_of};
ghost use Rattle.thrax_link.specs.Exports.{exports_of};
ghost use Rattle.speak_core.specs.Accepted.{RequestAsks, NamesAsk, PlanOf, RulesOf, VerbaliserOf, all_rules, need_of};
ghost use Rattle.speak_words.specs.Asked.{AreInBounds};
ghost use Rattle.speak_core.specs.Crews.{AreSeated, seats_for};
ghost use Rattle.speak_core.specs.Requests.{request_of};
ghost use Rattle.speak_core.specs.Loaded.{Builds, CanLoad, Checks, Finds, FindsGrammar, FindsSetup, FindsPlanned, ChecksBy, IsLoadedBy, SpeaksBy, expressions_of, plan_of};
ghost use Rattle.speak_core.specs.Stops.{Counts, IsRuleStop, IsReadStop};

use crate::crews::{Crew, none_swept, seats_for};
use crate::outside::fetch;
use crate::requests::{Mode, Request};
use crate::rules::rules_of;
use crate::speakers::{Loaded, Speaker};
use crate::stop::Stop;
use crate::{sizes, texts};
use core_expressions::Expr;
use norm_base::{Name, Shelf};
use normaliser::{Caller, LoadFault, Normaliser, load};
use speak_setup::{Need, Setup, SetupFault, read_setup};
use speak_words::Settings;
use std::alloc::Global;
use thrax_link::{Grammar, LinkFault, link};

/// How rules are loaded that speak no lines.
const SMALLEST: Settings = Settings {
    places: 1,
    jobs: 1,
    sweep: 0,
    report: false,
};

/// The rules of a plan, which aren't built yet.
#[derive(Drop)]
pub(crate) struct Rules {
    pub(crate) classifier: Vec<Expr>,
    /// None in mode classify.
    pub(crate) verbaliser: Vec<Expr>,
}

/// The speaker that a request asks for, by so many callers over a table of so many places.
pub(crate) fn find_speaker<H: Shelf>(
    alloc: Global,
    shelf: &mut H,
    request: &Request<'_>,
    settings: Settings,
) -> Result<Loaded, Stop>
    requires settings { AreInBounds settings }
    ensures finds { IfSome (H.files shelf.old) (λ files. FindsPlanned SpeaksBy (RequestAsks files (request_of request.now)) result) }
    ensures ready { IfOk result (IsLoadedBy settings) }
    ensures files { H.files shelf.new ≡ H.files shelf.old }
    ensures counts { Counts (H.faults shelf.old) (H.faults shelf.new) result }
    ensures stops { IfErr result IsReadStop }
{
    let setup = find_setup(alloc, shelf, request)?;
    find_named(alloc, shelf, request.mode, &setup, settings)
}

/// The sizes of the rules that a request asks for, as they are told, once all of them are built.
pub(crate) fn find_checked<H: Shelf>(
    alloc: Global,
    shelf: &mut H,
    request: &Request<'_>,
) -> Result<Vec<u8>, Stop>
    ensures finds { IfSome (H.files shelf.old) (λ files. FindsPlanned ChecksBy (RequestAsks files (request_of request.now)) result) }
    ensures files { H.files shelf.new ≡ H.files shelf.old }
    ensures counts { Counts (H.faults shelf.old) (H.faults shelf.new) result }
    ensures stops { IfErr result IsReadStop }
{
    let setup = find_setup(alloc, shelf, request)?;
    check_named(alloc, shelf, request.mode, &setup)
}

/// The setup of a request.
fn find_setup<H: Shelf>(alloc: Global, shelf: &mut H, request: &Request<'_>) -> Result<Setup, Stop>
    ensures finds { IfSome (H.files shelf.old) (λ files. FindsSetup files (request_of request.now) result) }
    ensures names { IfOk result (λ setup. HasNames (need_of request.now.mode) (names_of setup)) }
    ensures files { H.files shelf.new ≡ H.files shelf.old }
    ensures counts { Counts (H.faults shelf.old) (H.faults shelf.new) result }
    ensures stops { IfErr result IsReadStop }
{
    let text = match fetch(shelf, request.setup) {
        Ok(Some(text)) => text,
        Ok(None) => return Err(Stop::refused(Vec::from_slice(alloc, b"setup: not found\n"))),
        Err(stop) => return Err(stop),
    };
    match read_setup(alloc, &text, need_of(request.mode)) {
        Ok(setup) => Ok(setup),
        Err(SetupFault::Memory) => Err(Stop::Memory),
        Err(fault) => Err(Stop::refused(texts::setup(alloc, fault))),
    }
}

/// What a mode needs of its setup.
fn need_of(mode: Mode) -> Need
    ensures { result ≡ need_of mode }
{
    match mode {
        Mode::Classify => Need::Classifier,
        Mode::Speak => Need::Both,
    }
}

/// The speaker of the rules of a setup.
fn find_named<H: Shelf>(
    alloc: Global,
    shelf: &mut H,
    mode: Mode,
    setup: &Setup,
    settings: Settings,
) -> Result<Loaded, Stop>
    requires names { HasNames (need_of mode) (names_of setup.now) }
    requires settings { AreInBounds settings }
    ensures finds { IfSome (H.files shelf.old) (λ files. FindsPlanned SpeaksBy (NamesAsk files mode (names_of setup.now)) result) }
    ensures ready { IfOk result (IsLoadedBy settings) }
    ensures files { H.files shelf.new ≡ H.files shelf.old }
    ensures counts { Counts (H.faults shelf.old) (H.faults shelf.new) result }
    ensures stops { IfErr result IsReadStop }
{
    let rules = find_plan(alloc, shelf, mode, setup)?;
    build(alloc, mode, setup, &rules, settings)
}

/// The sizes of the rules of a setup.
fn check_named<H: Shelf>(
    alloc: Global,
    shelf: &mut H,
    mode: Mode,
    setup: &Setup,
) -> Result<Vec<u8>, Stop>
    requires { HasNames (need_of mode) (names_of setup.now) }
    ensures finds { IfSome (H.files shelf.old) (λ files. FindsPlanned ChecksBy (NamesAsk files mode (names_of setup.now)) result) }
    ensures files { H.files shelf.new ≡ H.files shelf.old }
    ensures counts { Counts (H.faults shelf.old) (H.faults shelf.new) result }
    ensures stops { IfErr result IsReadStop }
{
    let rules = find_plan(alloc, shelf, mode, setup)?;
    check(alloc, mode, setup, &rules)
}

/// The sizes of these rules, or the refusal of the first that can't be built.
fn check(alloc: Global, mode: Mode, setup: &Setup, rules: &Rules) -> Result<Vec<u8>, Stop>
    requires { CanLoad (names_of setup.now) rules.now }
    ensures checks { Checks (names_of setup.now) (plan_of mode (names_of setup.now) rules.now) result }
    ensures stops { IfErr result IsRuleStop }
{
    let _built = build(alloc, mode, setup, rules, SMALLEST)?;
    let text = sizes::all(alloc, setup, rules)?;
    Ok(text)
}

/// The rules of a setup in a mode, the classifier's looked up before the verbaliser's.
fn find_plan<H: Shelf>(
    alloc: Global,
    shelf: &mut H,
    mode: Mode,
    setup: &Setup,
) -> Result<Rules, Stop>
    requires { HasNames (need_of mode) (names_of setup.now) }
    ensures finds { IfSome (H.files shelf.old) (λ files. Finds (plan_of mode (names_of setup.now)) (PlanOf files mode (names_of setup.now)) result) }
    ensures can_load { IfOk result (CanLoad (names_of setup.now)) }
    ensures files { H.files shelf.new ≡ H.files shelf.old }
    ensures counts { Counts (H.faults shelf.old) (H.faults shelf.new) result }
    ensures stops { IfErr result IsReadStop }
{
    let classifier = find_rules(alloc, shelf, &setup.tokenizer, &setup.tokenizer_rules)?;
    let verbaliser = find_verbaliser(alloc, shelf, mode, setup)?;
    Ok(Rules {
        classifier,
        verbaliser,
    })
}

/// The verbaliser's rules. Mode classify has none.
fn find_verbaliser<H: Shelf>(
    alloc: Global,
    shelf: &mut H,
    mode: Mode,
    setup: &Setup,
) -> Result<Vec<Expr>, Stop>
    requires { HasVerbalizer (need_of mode) (names_of setup.now) }
    ensures finds { IfSome (H.files shelf.old) (λ files. Finds expressions_of (VerbaliserOf files mode (names_of setup.now)) result) }
    ensures can_be_built { IfOk result (λ rules. All CanBeBuilt (expressions_of rules)) }
    ensures few { IfOk result (λ rules. length rules.items ≤ most_rules) }
    ensures named { IfOk result (λ rules. length rules.items ≤ length setup.now.verbalizer_rules.items) }
    ensures files { H.files shelf.new ≡ H.files shelf.old }
    ensures counts { Counts (H.faults shelf.old) (H.faults shelf.new) result }
    ensures stops { IfErr result IsReadStop }
{
    match mode {
        Mode::Classify => Ok(Vec::new(alloc)),
        Mode::Speak => {
            let file = setup.verbalizer.as_ref().unwrap();
            find_rules(alloc, shelf, file, &setup.verbalizer_rules)
        }
    }
}

/// The rules of these names that a grammar file exports.
fn find_rules<H: Shelf>(
    alloc: Global,
    shelf: &mut H,
    file: &Name,
    names: &[Name],
) -> Result<Vec<Expr>, Stop>
    requires { IsNamed file.now names.now }
    ensures finds { IfSome (H.files shelf.old) (λ files. Finds expressions_of (RulesOf files file.now names.now) result) }
    ensures can_be_built { IfOk result (λ rules. All CanBeBuilt (expressions_of rules)) }
    ensures count { IfOk result (λ rules. length rules.items ≡ length names.now) }
    ensures files { H.files shelf.new ≡ H.files shelf.old }
    ensures counts { Counts (H.faults shelf.old) (H.faults shelf.new) result }
    ensures stops { IfErr result IsReadStop }
{
    match find_grammar(alloc, shelf, file) {
        Ok(grammar) => rules_of(alloc, &grammar, file, names),
        Err(stop) => Err(stop),
    }
}

/// What the grammar file of this name exports.
fn find_grammar<H: Shelf>(alloc: Global, shelf: &mut H, file: &Name) -> Result<Grammar, Stop>
    requires { All (λ b. (32 ≤ b) × (b ≤ 126)) file.now }
    ensures finds { IfSome (H.files shelf.old) (λ files. FindsGrammar files file.now result) }
    ensures files { H.files shelf.new ≡ H.files shelf.old }
    ensures counts { Counts (H.faults shelf.old) (H.faults shelf.new) result }
    ensures stops { IfErr result IsReadStop }
{
    match link(alloc, shelf, file) {
        Ok(grammar) => Ok(grammar),
        Err(
            LinkFault::Refused {
                file,
                statement,
                why,
            },
        ) => Err(Stop::refused(texts::refusal(alloc, &file, statement, why))),
        Err(LinkFault::ShelfFault) => Err(Stop::Outside),
        Err(LinkFault::Memory) => Err(Stop::Memory),
    }
}

/// The speaker of these rules, or the refusal of the first of which a rewrite may read the empty text.
fn build(
    alloc: Global,
    mode: Mode,
    setup: &Setup,
    rules: &Rules,
    settings: Settings,
) -> Result<Loaded, Stop>
    requires rules { CanLoad (names_of setup.now) rules.now }
    requires settings { AreInBounds settings }
    ensures builds { Builds (names_of setup.now) (plan_of mode (names_of setup.now) rules.now) result }
    ensures ready { IfOk result (IsLoadedBy settings) }
    ensures stops { IfErr result IsRuleStop }
{
    let seats = seats_for(settings.jobs, settings.sweep);
    match load(
        alloc,
        &rules.classifier,
        &rules.verbaliser,
        settings.places,
        seats,
    ) {
        Ok((normaliser, callers)) => Ok(loaded(mode, normaliser, callers, settings)),
        Err(LoadFault::RewritesEmpty { rule }) => {
            let name = rule_name(setup, rule);
            Err(Stop::refused(texts::rewrites_empty(alloc, name)))
        }
        Err(LoadFault::Memory) => Err(Stop::Memory),
    }
}

/// The speaker of a normaliser, by a crew of its new callers.
fn loaded(mode: Mode, normaliser: Normaliser, callers: Vec<Caller>, settings: Settings) -> Loaded
    requires settings { AreInBounds settings }
    requires count { length callers.items ≡ seats_for settings.jobs settings.sweep }
    requires new { All (IsNewCallerOf normaliser) callers.items }
    requires seated { AreSeated (seats_for settings.jobs settings.sweep) callers.items }
    requires places { places_of normaliser ≡ settings.places }
    ensures speaker { result.speaker ≡ record { normaliser = normaliser; mode = mode } }
    ensures ready { IsLoadedBy settings result }
{
    let speaker = Speaker { normaliser, mode };
    let crew = Crew {
        callers,
        settings,
        swept: none_swept(),
    };
    Loaded { speaker, crew }
}

/// The name of the rule of this number. The verbaliser's rules are counted after the classifier's.
fn rule_name(setup: &Setup, rule: usize) -> &Name
    requires { rule < length (all_rules (names_of setup.now)) }
    ensures { slice_get (all_rules (names_of setup.now)) rule ≡ Some result.now }
{
    let first = setup.tokenizer_rules.len();
    if rule < first {
        &setup.tokenizer_rules[rule]
    } else {
        &setup.verbalizer_rules[rule - first]
    }
}
