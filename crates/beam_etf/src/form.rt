ghost use Rattle.std.specs.Prelude.{◌≡◌};
ghost use Rattle.beam_model.specs.ExternalForm.{form_of};

use beam_model::external::Form;

/// The form of a tag.
#[tactic(auto, unfolding(beam_model::specs::ExternalForm::form_of))]
pub fn form_of(tag: u8) -> Form
    ensures { result ≡ form_of tag }
{
    match tag {
        97 => Form::SmallInteger,
        98 => Form::Integer,
        110 => Form::SmallBig,
        106 => Form::Nil,
        107 => Form::String,
        108 => Form::List,
        104 => Form::SmallTuple,
        105 => Form::LargeTuple,
        119 => Form::SmallAtom,
        118 => Form::LongAtom,
        88 => Form::Pid,
        90 => Form::Reference,
        70 | 77 | 80 | 89 | 99..=103 | 109 | 111..=117 | 120 => Form::LeftOut,
        _ => Form::Unknown,
    }
}
