//! The items of the file's lists: their form and their names.

ghost use Rattle.std.specs.Prelude.{◌≡◌, not, position, length, nat_le, codes};
ghost use Rattle.borrowed_json.specs.View.{view};
ghost use Rattle.file_rules.specs.Places.{first_not, first_item};
ghost use Rattle.file_rules.specs.Form.{first_in_lists, is_link_form, unformed_item};
ghost use Rattle.file_rules.specs.Kept.{other_forms, other_names};
ghost use Rattle.file_rules.specs.Names.{spells_name, names_of_device, names_of_link, own_name, misspelled_item};
ghost use Rattle.borrowed_json.specs.Look.{must_have, may_have, list_in};
ghost use Rattle.file_rules.specs.Rules.{is_second};
ghost use Rattle.file_rules.specs.Broken.{member_name, place_of};
ghost use Rattle.file_rules.specs.Tests.{item_test};

use crate::rules::form::{
    is_actor_form, is_answer_form, is_device_form, is_link_form, is_notifier_form,
};
use crate::value::place::{Member, Place, items};
use borrowed_json::{Value, as_str, get, has_number, is_string};
use sleep_model::is_name;

/// A test of an item of a list.
#[derive(Clone, Copy)]
pub(crate) enum ItemTest {
    DeviceForm,
    /// Of a file of version 2, or of version 1.
    LinkForm(bool),
    Text,
    NotifierForm,
    ActorForm,
    AnswerForm,
    DeviceNames,
    LinkNames,
    NameText,
    OwnName,
}

/// Whether the file is of version 2.
pub fn is_second(tree: &Value<'_>) -> bool
    ensures { result ≡ is_second (view tree.now) }
{
    has_number(tree, "version", 2)
}

/// Whether it is a text that is spelled as names are.
pub fn spells_name(value: &Value<'_>) -> bool
    ensures { result ≡ spells_name (view value.now) }
{
    match as_str(value) {
        Some(text) => is_name(text.as_bytes()),
        None => false,
    }
}

pub(crate) fn must_be_name(value: &Value<'_>, name: &str) -> bool
    ensures { result ≡ must_have name.now spells_name (view value.now) }
{
    match get(value, name) {
        Some(found) => spells_name(found),
        None => false,
    }
}

fn may_be_name(value: &Value<'_>, name: &str) -> bool
    ensures { result ≡ may_have name.now spells_name (view value.now) }
{
    match get(value, name) {
        Some(found) => spells_name(found),
        None => true,
    }
}

/// Whether an item passes.
fn passes(test: ItemTest, value: &Value<'_>) -> bool
    ensures { result ≡ item_test test (view value.now) }
{
    match test {
        ItemTest::DeviceForm => is_device_form(value),
        ItemTest::LinkForm(second) => is_link_form(value, second),
        ItemTest::Text => is_string(value),
        ItemTest::NotifierForm => is_notifier_form(value),
        ItemTest::ActorForm => is_actor_form(value),
        ItemTest::AnswerForm => is_answer_form(value),
        ItemTest::DeviceNames => must_be_name(value, "name") && may_be_name(value, "parent"),
        ItemTest::LinkNames => must_be_name(value, "supplier") && must_be_name(value, "consumer"),
        ItemTest::NameText => spells_name(value),
        ItemTest::OwnName => must_be_name(value, "name"),
    }
}

/// The place of the first item of a list that does not pass.
pub(crate) fn first_item(tree: &Value<'_>, list: Member, test: ItemTest) -> Option<Place>
    ensures { place_of result ≡ first_item (member_name list) (item_test test) (view tree.now) }
{
    match first_failing(tree, list, test) {
        Some(number) => Some(Place::Item(list, number)),
        None => None,
    }
}

fn first_failing(tree: &Value<'_>, list: Member, test: ItemTest) -> Option<usize>
    ensures { result ≡ first_not (item_test test) (list_in (member_name list) (view tree.now)) }
{
    first_not(items(tree, list), test)
}

fn first_not(values: &[Value<'_>], test: ItemTest) -> Option<usize>
    ensures { result ≡ position (λ v. not (item_test test (view v))) values.now }
{
    values.iter().position(|value| !passes(test, value))
}

/// The first link that has not its form, in a file of that version.
fn unformed_link(tree: &Value<'_>) -> Option<Place>
    ensures { place_of result ≡ first_item (codes "links") (is_link_form (is_second (view tree.now))) (view tree.now) }
{
    first_item(tree, Member::Links, ItemTest::LinkForm(is_second(tree)))
}

/// The first item that has not its form.
pub(crate) fn unformed_item(tree: &Value<'_>) -> Option<Place>
    ensures { place_of result ≡ unformed_item (view tree.now) }
{
    first_item(tree, Member::Devices, ItemTest::DeviceForm)
        .or(unformed_link(tree))
        .or(first_item(tree, Member::Syscore, ItemTest::Text))
        .or(first_item(tree, Member::Notifiers, ItemTest::NotifierForm))
        .or(first_item(tree, Member::Sources, ItemTest::Text))
        .or(first_item(tree, Member::Actors, ItemTest::ActorForm))
        .or(first_item(tree, Member::Answers, ItemTest::AnswerForm))
}

/// The first item, but of links, that has not its form.
pub(crate) fn other_unformed(tree: &Value<'_>) -> Option<Place>
    ensures { place_of result ≡ first_in_lists other_forms (view tree.now) }
{
    first_item(tree, Member::Devices, ItemTest::DeviceForm)
        .or(first_item(tree, Member::Syscore, ItemTest::Text))
        .or(first_item(tree, Member::Notifiers, ItemTest::NotifierForm))
        .or(first_item(tree, Member::Sources, ItemTest::Text))
        .or(first_item(tree, Member::Actors, ItemTest::ActorForm))
        .or(first_item(tree, Member::Answers, ItemTest::AnswerForm))
}

/// The first item, but of links, with a name that is misspelled.
pub(crate) fn other_misspelled(tree: &Value<'_>) -> Option<Place>
    ensures { place_of result ≡ first_in_lists other_names (view tree.now) }
{
    first_item(tree, Member::Devices, ItemTest::DeviceNames)
        .or(first_item(tree, Member::Syscore, ItemTest::NameText))
        .or(first_item(tree, Member::Notifiers, ItemTest::OwnName))
        .or(first_item(tree, Member::Sources, ItemTest::NameText))
        .or(first_item(tree, Member::Actors, ItemTest::OwnName))
        .or(first_item(tree, Member::Answers, ItemTest::OwnName))
}

/// The first item with a name that is misspelled.
pub(crate) fn misspelled_item(tree: &Value<'_>) -> Option<Place>
    ensures { place_of result ≡ misspelled_item (view tree.now) }
{
    first_item(tree, Member::Devices, ItemTest::DeviceNames)
        .or(first_item(tree, Member::Links, ItemTest::LinkNames))
        .or(first_item(tree, Member::Syscore, ItemTest::NameText))
        .or(first_item(tree, Member::Notifiers, ItemTest::OwnName))
        .or(first_item(tree, Member::Sources, ItemTest::NameText))
        .or(first_item(tree, Member::Actors, ItemTest::OwnName))
        .or(first_item(tree, Member::Answers, ItemTest::OwnName))
}
