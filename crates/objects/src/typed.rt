ghost use Rattle.std.specs.Prelude.{◌≡◌, Some, None, Option, IfOk, IfSome};
ghost use Rattle.definitions.specs.PlainReader.{Parser, parse_number, parse_name, parse_string, parse_array, Answer};
ghost use Rattle.objects.specs.Answers.{told, held, numbered, Judged};
ghost use Rattle.number.specs.declared.decimal.Decimal.{Decimal};
ghost use Rattle.objects.specs.declared.object.Object.{Object};
ghost use Rattle.objects.specs.declared.object.Object.TheVariants as case;

use super::array::Array;
use super::error::Refusal;
use super::name::Name;
use super::object::Object;
use super::string::String;
use reader::source::Source;
use single::value::Number;

// What a typed parser hands over: made of the object that it took, as the plain reader judges it.
pub trait Typed<I: Source>: Sized {
    // the parser, and its answer
    ghost parser: { Parser };

    ghost answer: { Self → Answer };

    // the object that this is, unless it is a number
    ghost whole: { Self → Option (Object I Decimal) };

    fn of(object: &Object<I>) -> Result<Self, Refusal>
        ensures judged { Judged I.Source.meaning parser object.now (told answer result) }
        ensures itself { IfOk result (λ t. IfSome (whole t) (λ x. x ≡ object.now)) };
}

impl<I: Source> Typed<I> for Number {
    ghost parser = { parse_number };

    ghost answer = { numbered };

    ghost whole = { λ _. None };

    fn of(object: &Object<I>) -> Result<Number, Refusal> {
        object.number()
    }
}

impl<I: Source> Typed<I> for Name<I> {
    ghost parser = { parse_name };

    ghost answer = { held I.Source.meaning case.Name };

    ghost whole = { λ x. Some (case.Name x) };

    fn of(object: &Object<I>) -> Result<Name<I>, Refusal> {
        object.name()
    }
}

impl<I: Source> Typed<I> for String<I> {
    ghost parser = { parse_string };

    ghost answer = { held I.Source.meaning case.String };

    ghost whole = { λ x. Some (case.String x) };

    fn of(object: &Object<I>) -> Result<String<I>, Refusal> {
        object.string()
    }
}

impl<I: Source> Typed<I> for Array<I> {
    ghost parser = { parse_array };

    ghost answer = { held I.Source.meaning case.Array };

    ghost whole = { λ x. Some (case.Array x) };

    fn of(object: &Object<I>) -> Result<Array<I>, Refusal> {
        object.array()
    }
}
