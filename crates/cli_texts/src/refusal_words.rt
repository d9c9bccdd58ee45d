//! The words of refusals.
ghost use Rattle.std.specs.Prelude.{◌≡◌};
ghost use Rattle.cli_texts.specs.Refusals.{word_of, count_word};

use cc_base::{Count, Refusal};

/// The word that a refusal prints.
pub fn word_of(refusal: &Refusal) -> &'static str
    ensures { result.now ≡ word_of refusal.now }
{
    match refusal {
        Refusal::BadByte => "BadByte",
        Refusal::OpenComment => "OpenComment",
        Refusal::OpenLiteral => "OpenLiteral",
        Refusal::TooManyTokens { count: _, limit: _ } => "TooManyTokens",
        Refusal::HeaderMissing(_) => "HeaderMissing",
        Refusal::BadDirective => "BadDirective",
        Refusal::UnevenConditional => "UnevenConditional",
        Refusal::ErrorDirective => "ErrorDirective",
        Refusal::MacroSpill => "MacroSpill",
        Refusal::MacroArguments => "MacroArguments",
        Refusal::IncludeDepth => "IncludeDepth",
        Refusal::MacroRedefined => "MacroRedefined",
        Refusal::FileTooLong { count: _, limit: _ } => "FileTooLong",
        Refusal::NumberForm => "NumberForm",
        Refusal::Unsupported(_) => "Unsupported",
        Refusal::Syntax => "Syntax",
        Refusal::Undeclared => "Undeclared",
        Refusal::Redeclared => "Redeclared",
        Refusal::TypeFault => "TypeFault",
        Refusal::PointerInteger => "PointerInteger",
        Refusal::ConstantNeeded => "ConstantNeeded",
        Refusal::FormatFault => "FormatFault",
        Refusal::NoEntry => "NoEntry",
        Refusal::Recursion => "Recursion",
        Refusal::TooLarge {
            what: _,
            count: _,
            limit: _,
        } => "TooLarge",
    }
}

/// The word for what is counted.
pub fn count_word(what: Count) -> &'static str
    ensures { result.now ≡ count_word what }
{
    match what {
        Count::Temps => "temps",
        Count::Bases => "bases",
        Count::Cells => "cells",
        Count::Blocks => "blocks",
        Count::Instructions => "instructions",
        Count::Pool => "pool",
    }
}
