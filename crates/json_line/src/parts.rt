//! Objects and arrays, and whole lines.

ghost use Rattle.std.specs.Prelude.{◌≡◌, ◌++◌, ◌∷◌, [], IfOk, OnOk, map, option_map, string_bytes};
ghost use Rattle.serde_json.specs.Data.{array, object, string};
ghost use Rattle.serde_json.specs.View.{items_of};
ghost use Rattle.serde_json.specs.Written.{compact_text};
ghost use Rattle.json_line.specs.Parts.{data_tokens, listed_tokens, member_if_tokens, member_tokens, members_from};

use crate::data::{JsonData, JsonIn, JsonMember, JsonText};
use crate::lines::JsonLine;
use aerie_base::OutOfMemory;
use std::alloc::Global;

impl JsonLine {
    /// A member of an object.
    #[tactic(auto, unfolding(crate::specs::Parts::member_tokens))]
    pub fn member<T: JsonData>(&mut self, name: &str, value: &T) -> Result<(), OutOfMemory>
        ensures { OnOk result (self.new ≡ self.old ++ member_tokens name.now (T.as_data value.now)) }
    {
        self.key(name)?;
        value.write(self)
    }

    /// A member that stands there only with a value.
    #[tactic(auto, unfolding(crate::specs::Parts::member_if_tokens))]
    pub fn member_if<T: JsonData>(
        &mut self,
        name: &str,
        value: &Option<T>,
    ) -> Result<(), OutOfMemory>
        ensures { OnOk result (self.new ≡ self.old ++ member_if_tokens name.now (option_map T.as_data value.now)) }
    {
        match value {
            Some(value) => self.member(name, value),
            None => Ok(()),
        }
    }

    /// A member whose value is a text.
    #[tactic(auto, unfolding(crate::specs::Parts::member_tokens))]
    pub fn text_member(&mut self, name: &str, text: &str) -> Result<(), OutOfMemory>
        ensures { OnOk result (self.new ≡ self.old ++ member_tokens name.now (string text.now)) }
    {
        self.key(name)?;
        self.text(text)
    }

    /// A member whose value is a text that is put together of parts.
    #[tactic(auto, unfolding(crate::specs::Parts::member_tokens))]
    pub fn text_member_of<T: JsonText>(&mut self, name: &str, value: &T) -> Result<(), OutOfMemory>
        ensures { OnOk result (self.new ≡ self.old ++ member_tokens name.now (string (T.as_text value.now))) }
    {
        self.key(name)?;
        self.text_of(value)
    }

    /// A member whose value is written as what it belongs to says.
    #[tactic(auto, unfolding(crate::specs::Parts::member_tokens))]
    pub fn member_in<C, T: JsonIn<C>>(
        &mut self,
        name: &str,
        context: &C,
        value: &T,
    ) -> Result<(), OutOfMemory>
        ensures { OnOk result (self.new ≡ self.old ++ member_tokens name.now (T.data_in context.now value.now)) }
    {
        self.key(name)?;
        value.write_in(context, self)
    }

    /// A member that stands there only with a value, which is written as what it belongs to says.
    #[tactic(auto, unfolding(crate::specs::Parts::member_if_tokens))]
    pub fn member_if_in<C, T: JsonIn<C>>(
        &mut self,
        name: &str,
        context: &C,
        value: &Option<T>,
    ) -> Result<(), OutOfMemory>
        ensures { OnOk result (self.new ≡ self.old ++ member_if_tokens name.now (option_map (T.data_in context.now) value.now)) }
    {
        match value {
            Some(value) => self.member_in(name, context, value),
            None => Ok(()),
        }
    }

    /// The array of these values.
    #[tactic(auto, unfolding(crate::specs::Parts::data_tokens, crate::specs::Parts::with_items))]
    pub fn list<T: JsonData>(&mut self, items: &[T]) -> Result<(), OutOfMemory>
        ensures { OnOk result (self.new ≡ self.old ++ data_tokens (array (items_of (map T.as_data items.now)))) }
    {
        self.begin_array()?;
        for item in items {
            item.write(self)?;
        }
        self.end_array()
    }

    /// The array of these values, each written as what it belongs to says.
    #[tactic(auto, unfolding(crate::specs::Parts::data_tokens, crate::specs::Parts::with_items))]
    pub fn list_in<C, T: JsonIn<C>>(&mut self, context: &C, items: &[T]) -> Result<(), OutOfMemory>
        ensures { OnOk result (self.new ≡ self.old ++ data_tokens (array (items_of (map (T.data_in context.now) items.now)))) }
    {
        self.begin_array()?;
        for item in items {
            item.write_in(context, self)?;
        }
        self.end_array()
    }

    /// Items of an array that is open, each written as what it belongs to says.
    #[tactic(auto, unfolding(crate::specs::Parts::listed_tokens))]
    pub fn items_in<C, T: JsonIn<C>>(&mut self, context: &C, items: &[T]) -> Result<(), OutOfMemory>
        ensures { OnOk result (self.new ≡ self.old ++ listed_tokens (map (T.data_in context.now) items.now)) }
    {
        for item in items {
            item.write_in(context, self)?;
        }
        Ok(())
    }

    /// The object of these members, in their order. That this is the order of the bytes of their names, as in every object
    /// that serde_json writes, is the caller's matter.
    #[tactic(auto, unfolding(crate::specs::Parts::data_tokens, crate::specs::Parts::member_tokens, crate::specs::Parts::with_members))]
    pub fn members<T: JsonMember>(&mut self, members: &[T]) -> Result<(), OutOfMemory>
        ensures { OnOk result (self.new ≡ self.old ++ data_tokens (object (members_from (map T.as_member members.now)))) }
    {
        self.begin_object()?;
        for member in members {
            member.write_member(self)?;
        }
        self.end_object()
    }
}

/// The compact text of a value and a line feed.
pub fn line_of<T: JsonData>(alloc: Global, value: &T) -> Result<String, OutOfMemory>
    ensures { IfOk result (λ line. string_bytes line ≡ compact_text (T.as_data value.now) ++ 10 ∷ []) }
{
    let mut line = JsonLine::new(alloc);
    value.write(&mut line)?;
    line.finish()
}

/// The compact text of a value, written as what it belongs to says, and a line feed.
pub fn line_of_in<C, T: JsonIn<C>>(
    alloc: Global,
    context: &C,
    value: &T,
) -> Result<String, OutOfMemory>
    ensures { IfOk result (λ line. string_bytes line ≡ compact_text (T.data_in context.now value.now) ++ 10 ∷ []) }
{
    let mut line = JsonLine::new(alloc);
    value.write_in(context, &mut line)?;
    line.finish()
}
