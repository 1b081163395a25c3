// Parts of a block as JSON values.
ghost use Rattle.std.specs.Prelude.{◌≡◌, ◌++◌, ◌∷◌, map, OnOk};
ghost use Rattle.json.specs.Json.{Json};
ghost use Rattle.json.specs.Token.{key};
ghost use Rattle.json.specs.Tree.{json_tokens};
ghost use Rattle.plan_data.specs.PlanValue.{list_of, pair_of};
ghost use Rattle.sql_text.specs.Canonical.{sign_text};

use crate::json_text::JsonText;
use beas_core::{Comparison, List, Name, NoMemory, Operand, Place, Sign, Value};

/// What is written as one JSON value.
pub trait AsJson {
    /// The value.
    ghost json: { Self → Json };

    /// Adds it to a text.
    fn write(&self, out: &mut JsonText) -> Result<(), NoMemory>
        ensures { OnOk result (out.new ≡ out.old ++ json_tokens (json self.now)) };
}

impl AsJson for u16 {
    ghost use Rattle.plan_data.specs.PlanValue.{natural};

    ghost json = { natural };

    fn write(&self, out: &mut JsonText) -> Result<(), NoMemory> {
        out.natural(u64::from(*self))
    }
}

impl AsJson for u32 {
    ghost use Rattle.plan_data.specs.PlanValue.{natural};

    ghost json = { natural };

    fn write(&self, out: &mut JsonText) -> Result<(), NoMemory> {
        out.natural(u64::from(*self))
    }
}

impl AsJson for bool {
    ghost use Rattle.json.specs.Json.{boolean};

    ghost json = { λ b. boolean b };

    fn write(&self, out: &mut JsonText) -> Result<(), NoMemory> {
        out.boolean(*self)
    }
}

impl AsJson for Name {
    ghost use Rattle.json.specs.Json.{string};

    ghost json = { λ name. string name };

    fn write(&self, out: &mut JsonText) -> Result<(), NoMemory> {
        out.string(self.as_str())
    }
}

impl AsJson for Value {
    ghost use Rattle.plan_data.specs.PlanValue.{literal_value};

    ghost json = { literal_value };

    fn write(&self, out: &mut JsonText) -> Result<(), NoMemory> {
        match self {
            Value::Int(number) => out.integer(*number),
            Value::Str(text) => out.string(text.as_str()),
        }
    }
}

impl AsJson for Place {
    ghost use Rattle.plan_data.specs.PlanValue.{place_value};

    ghost json = { place_value };

    fn write(&self, out: &mut JsonText) -> Result<(), NoMemory> {
        write_pair(out, &self.atom, &self.column.0)
    }
}

impl<A: AsJson, B: AsJson> AsJson for (A, B) {
    ghost use Rattle.plan_data.specs.PlanValue.{pair_of};

    ghost json = { λ pair. pair_of (A.json pair.0) (B.json pair.1) };

    fn write(&self, out: &mut JsonText) -> Result<(), NoMemory> {
        write_pair(out, &self.0, &self.1)
    }
}

impl<T: AsJson> AsJson for List<T> {
    ghost use Rattle.std.specs.Prelude.{map};
    ghost use Rattle.plan_data.specs.PlanValue.{list_of};

    ghost json = { λ items. list_of (map T.json items) };

    fn write(&self, out: &mut JsonText) -> Result<(), NoMemory> {
        write_list(out, self.as_slice())
    }
}

impl AsJson for Comparison {
    ghost use Rattle.plan_data.specs.PlanValue.{comparison_value};

    ghost json = { comparison_value };

    fn write(&self, out: &mut JsonText) -> Result<(), NoMemory> {
        out.begin_object()?;
        write_member(out, "left", &self.left)?;
        out.member("sign")?;
        out.string(sign_text(self.sign))?;
        write_member(out, "right", &self.right)?;
        out.end_object()
    }
}

impl AsJson for Operand {
    ghost use Rattle.plan_data.specs.PlanValue.{operand_value};

    ghost json = { operand_value };

    fn write(&self, out: &mut JsonText) -> Result<(), NoMemory> {
        out.begin_object()?;
        match self {
            Operand::Fixed(value) => {
                out.member("value")?;
                value.write(out)?;
            }
            Operand::At(place) => {
                out.member("at")?;
                place.write(out)?;
            }
        }
        out.end_object()
    }
}

/// Adds a member of an object.
pub fn write_member<T: AsJson>(out: &mut JsonText, name: &str, value: &T) -> Result<(), NoMemory>
    ensures { OnOk result (out.new ≡ out.old ++ key name.now ∷ json_tokens (T.json value.now)) }
{
    out.member(name)?;
    value.write(out)
}

/// Adds a list of values.
pub fn write_list<T: AsJson>(out: &mut JsonText, items: &[T]) -> Result<(), NoMemory>
    ensures { OnOk result (out.new ≡ out.old ++ json_tokens (list_of (map T.json items.now))) }
{
    out.begin_array()?;
    for item in items {
        item.write(out)?;
    }
    out.end_array()
}

/// Adds a list of two values.
fn write_pair<A: AsJson, B: AsJson>(
    out: &mut JsonText,
    first: &A,
    second: &B,
) -> Result<(), NoMemory>
    ensures { OnOk result (out.new ≡ out.old ++ json_tokens (pair_of (A.json first.now) (B.json second.now))) }
{
    out.begin_array()?;
    first.write(out)?;
    second.write(out)?;
    out.end_array()
}

/// A sign as the language writes it.
fn sign_text(sign: Sign) -> &'static str
    ensures { result.now ≡ sign_text sign }
{
    match sign {
        Sign::Equal => "=",
        Sign::Differs => "<>",
        Sign::Less => "<",
        Sign::AtMost => "<=",
        Sign::More => ">",
        Sign::AtLeast => ">=",
    }
}
