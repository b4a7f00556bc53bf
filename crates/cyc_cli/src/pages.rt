//! The page of each code of a refusal, which `cyclone explain` prints: the rule, a text that breaks it, and that text mended.
//! They are made of `docs/codes.txt` by `python3 tests/runners/codes.py --write`.

ghost use Rattle.std.specs.Prelude.{◌≡◌};
ghost use Rattle.cyc_cli.specs.inside.Pages.{page_of};

use cyc_words::Code;

mod flow;
mod limits;
mod syntax;
mod types;

/// The page of a code, in lines.
pub fn page(code: Code) -> &'static str
    ensures { result.now ≡ page_of code }
{
    match code {
        Code::UnknownByte => syntax::UNKNOWN_BYTE,
        Code::UnclosedComment => syntax::UNCLOSED_COMMENT,
        Code::NumberTooLarge => syntax::NUMBER_TOO_LARGE,
        Code::TextTooLong => syntax::TEXT_TOO_LONG,
        Code::Memory => syntax::MEMORY,
        Code::TooManyTokens => syntax::TOO_MANY_TOKENS,
        Code::UnexpectedToken => syntax::UNEXPECTED_TOKEN,
        Code::UnexpectedEnd => syntax::UNEXPECTED_END,
        Code::NestingTooDeep => syntax::NESTING_TOO_DEEP,
        Code::ListTooLong => syntax::LIST_TOO_LONG,
        Code::UnknownName => types::UNKNOWN_NAME,
        Code::DeclaredTwice => types::DECLARED_TWICE,
        Code::TypeMismatch => types::TYPE_MISMATCH,
        Code::NullForNonNull => types::NULL_FOR_NON_NULL,
        Code::RegionNotLive => types::REGION_NOT_LIVE,
        Code::NotOutlived => types::NOT_OUTLIVED,
        Code::EffectNotCovered => types::EFFECT_NOT_COVERED,
        Code::UniqueShared => types::UNIQUE_SHARED,
        Code::NotAPlace => types::NOT_A_PLACE,
        Code::RegionOrKeyMisused => types::REGION_OR_KEY_MISUSED,
        Code::BadMain => types::BAD_MAIN,
        Code::OutsideLoop => types::OUTSIDE_LOOP,
        Code::EmptyVariable => flow::EMPTY_VARIABLE,
        Code::LockedVariable => flow::LOCKED_VARIABLE,
        Code::LoopEmptiesVariable => flow::LOOP_EMPTIES_VARIABLE,
        Code::MissingReturn => flow::MISSING_RETURN,
        Code::TooManyFunctions => limits::TOO_MANY_FUNCTIONS,
        Code::FrameTooLarge => limits::FRAME_TOO_LARGE,
    }
}
