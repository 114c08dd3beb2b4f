// What no clause says: that reading and writing succeed, and what JSON texts of the protocol read
// as.
use lsp_rows::{RowError, Trial, text_of};
use lsp_shape::{
    Key, Misfit, NoMemory, Reader, TextMisfit, TokenNumbers, Wanted, WideReader, Wire, Writer,
    attempt, field, find, list_or_empty, members_written, optional, put, put_flat, put_nullable,
    put_optional, put_tag, put_unless_empty, put_unless_false, put_value, read_text, read_value,
    reads_back, rest, supported, tag, trimmed, truth_or_false, write_text, write_value,
};
use serde_json::{Map, Value};
use std::alloc::Global;
use std::collections::HashMap;
use std::test::Fail;

fn json(alloc: Global, text: &str) -> Result<Value, Fail> {
    Ok(Value::from_str(alloc, text)?)
}

fn object(alloc: Global, text: &str) -> Result<Map<String, Value>, Fail> {
    Ok(Map::from_value(alloc, &json(alloc, text)?)?)
}

const U8: &str = r#"
0
7
255
! 256 :: an unsigned integer is wanted
! -1 :: an unsigned integer is wanted
! 1.0 :: an unsigned integer is wanted
! "1" :: an unsigned integer is wanted
! null :: an unsigned integer is wanted
! true :: an unsigned integer is wanted
! [] :: an unsigned integer is wanted
"#;

const U32: &str = r#"
0
4294967295
! 4294967296 :: an unsigned integer is wanted
! -1 :: an unsigned integer is wanted
! 0.5 :: an unsigned integer is wanted
"#;

const I32: &str = r#"
-2147483648
-1
0
2147483647
! -2147483649 :: an integer is wanted
! 2147483648 :: an integer is wanted
! 1e3 :: an integer is wanted
"#;

const I64: &str = r#"
-9223372036854775808
9223372036854775807
! 9223372036854775808 :: an integer is wanted
"#;

#[test]
fn numbers_of_8_and_of_64_bits(rt: HostRuntime) -> Result<(), RowError> {
    let mut trial = Trial::new(rt.alloc());
    trial.holds::<u8>(U8);
    trial.holds::<i64>(I64);
    trial.end()
}

#[test]
fn numbers_of_32_bits(rt: HostRuntime) -> Result<(), RowError> {
    let mut trial = Trial::new(rt.alloc());
    trial.holds::<u32>(U32);
    trial.end()
}

#[test]
fn signed_numbers_of_32_bits(rt: HostRuntime) -> Result<(), RowError> {
    let mut trial = Trial::new(rt.alloc());
    trial.holds::<i32>(I32);
    trial.end()
}

const TRUTH: &str = "
true
! 0 :: true or false is wanted
";

const NULL: &str = "
null
! false :: null is wanted
";

const TEXT: &str = r#"
"a\u00e9" => "aé"
! null :: a text is wanted
"#;

const VALUE: &str = r#"
{"a":[1,null,{"b":-2}]}
"#;

const OBJECT: &str = r#"
{"a":[1,null,{"b":-2}]}
! [] :: an object is wanted
"#;

const LIST: &str = "
[0,1,5]
! [0,-1] :: [1]: an unsigned integer is wanted
! {} :: a list is wanted
";

const BOXED: &str = "
false
";

const OPTION: &str = r#"
null
3
! "3" :: an unsigned integer is wanted
"#;

const PAIR: &str = "
[2,5]
! [] :: a list of another length is wanted
! [2] :: a list of another length is wanted
! [2,5,7] :: a list of another length is wanted
! [2,-5] :: [1]: an unsigned integer is wanted
! null :: a list is wanted
";

const MAP: &str = r#"
{"a":1,"b":2,"c":3}
! {"a":true} :: a: an integer is wanted
! [1] :: an object is wanted
"#;

#[test]
fn values_of_std(rt: HostRuntime) -> Result<(), RowError> {
    let mut trial = Trial::new(rt.alloc());
    trial.holds::<bool>(TRUTH);
    trial.holds::<()>(NULL);
    trial.holds::<String>(TEXT);
    trial.holds::<Map<String, Value>>(OBJECT);
    trial.holds::<Vec<u32>>(LIST);
    trial.holds::<Box<bool>>(BOXED);
    trial.end()
}

#[test]
fn values_of_values(rt: HostRuntime) -> Result<(), Fail> {
    let alloc = rt.alloc();
    let mut trial = Trial::new(alloc);
    trial.holds::<Value>(VALUE);
    trial.holds::<Option<u32>>(OPTION);
    trial.holds::<[u32; 2]>(PAIR);
    trial.holds::<HashMap<String, i32>>(MAP);
    let key = String::from_text(alloc, "file:///a")?;
    trial.same("a key", key.as_text(), "file:///a");
    Ok(trial.end()?)
}

#[test]
fn texts(rt: HostRuntime) -> Result<(), RowError> {
    let alloc = rt.alloc();
    let mut trial = Trial::new(alloc);
    trial.same("3", read_text::<u32>(alloc, " 3"), Ok(3));
    trial.same(
        "no JSON",
        read_text::<u32>(alloc, "{"),
        Err(TextMisfit::Json),
    );
    trial.same(
        "no number",
        read_text::<u32>(alloc, "true"),
        Err(TextMisfit::Unfit),
    );
    trial.text("written", write_text(alloc, &3u32), "3");
    trial.end()
}

// The example of section "Formatting options" has further properties, each a boolean, a number or a
// text.
fn others_and_named(alloc: Global, options: &Map<String, Value>) -> Result<String, Misfit> {
    let others: HashMap<String, i32> = rest(alloc, options, &["tabSize", "insertSpaces"])?;
    let mut whole = members_written(alloc, &others)?;
    drop(others);
    put(alloc, &mut whole, "insertSpaces", &true)?;
    put(alloc, &mut whole, "tabSize", &4u32)?;
    Ok(text_of(alloc, &whole)?)
}

#[test]
fn members_that_are_not_named(rt: HostRuntime) -> Result<(), Fail> {
    let alloc = rt.alloc();
    let text = "{\"insertSpaces\":true,\"tabSize\":4,\"width\":80}";
    let options = object(alloc, text)?;
    let mut trial = Trial::new(alloc);
    trial.text("all", others_and_named(alloc, &options), text);
    drop(options);
    Ok(trial.end()?)
}

const POSITION: &str = "{\"line\":3,\"character\":null,\"on\":true,\"list\":[1]}";

fn is_unfit<T: Drop>(read: Result<T, Misfit>) -> bool {
    matches!(read, Err(Misfit::Unfit(_)))
}

fn try_fields(trial: &mut Trial, alloc: Global, position: &Map<String, Value>) {
    trial.same("line", field::<u32>(alloc, position, "line"), Ok(3));
    let missing = Err(Misfit::wanted(Wanted::member("row")));
    trial.same("row", field::<u32>(alloc, position, "row"), missing);
    let null = field::<u32>(alloc, position, "character");
    trial.is_true("character", is_unfit(null));
    trial.same("no row", find(position, "row").is_none(), true);
    trial.same("on", truth_or_false(alloc, position, "on"), Ok(true));
    trial.same("off", truth_or_false(alloc, position, "off"), Ok(false));
    let number = truth_or_false(alloc, position, "line");
    trial.is_true("no truth", is_unfit(number));
}

#[test]
fn fields_of_an_object(rt: HostRuntime) -> Result<(), Fail> {
    let alloc = rt.alloc();
    let position = object(alloc, POSITION)?;
    let mut trial = Trial::new(alloc);
    try_fields(&mut trial, alloc, &position);
    drop(position);
    Ok(trial.end()?)
}

fn try_absent(trial: &mut Trial, alloc: Global, position: &Map<String, Value>) {
    let line = optional::<u32>(alloc, position, "line");
    trial.same("line", line, Ok(Some(3)));
    let character = optional::<u32>(alloc, position, "character");
    trial.same("character", character, Ok(None));
    trial.same("row", optional::<u32>(alloc, position, "row"), Ok(None));
    let on = optional::<u32>(alloc, position, "on");
    trial.is_true("on", is_unfit(on));
    let list = list_or_empty::<u32>(alloc, position, "list");
    trial.shows("list", list, "Ok([1])");
    let list = list_or_empty::<u32>(alloc, position, "row");
    trial.shows("no list", list, "Ok([])");
}

#[test]
fn fields_that_may_be_absent(rt: HostRuntime) -> Result<(), Fail> {
    let alloc = rt.alloc();
    let position = object(alloc, POSITION)?;
    let mut trial = Trial::new(alloc);
    try_absent(&mut trial, alloc, &position);
    drop(position);
    Ok(trial.end()?)
}

// What is written of what is supported by the member, or `none`.
fn supported_by(
    alloc: Global,
    object: &Map<String, Value>,
    name: &'static str,
) -> Result<String, Misfit> {
    match supported::<Value>(alloc, object, name)? {
        Some(value) => Ok(value.to_string(alloc)?),
        None => Ok(String::from_str(alloc, "none")?),
    }
}

// `tagSupport` was a boolean before it was a record.
const TAG_SUPPORT: &[(&str, &str)] = &[
    ("no", "none"),
    ("nil", "none"),
    ("none", "none"),
    ("yes", "{\"valueSet\":[]}"),
    ("set", "{\"valueSet\":[1]}"),
];

#[test]
fn tag_support_of_old_editors(rt: HostRuntime) -> Result<(), Fail> {
    let alloc = rt.alloc();
    let value = object(
        alloc,
        "{\"no\":false,\"yes\":true,\"set\":{\"valueSet\":[1]},\"nil\":null}",
    )?;
    let mut trial = Trial::new(alloc);
    for (name, wanted) in TAG_SUPPORT {
        trial.text(*name, supported_by(alloc, &value, *name), *wanted);
    }
    drop(value);
    Ok(trial.end()?)
}

fn put_some(alloc: Global, object: &mut Map<String, Value>) -> Result<(), NoMemory> {
    put_optional(alloc, object, "a", &Some(1u32))?;
    put_optional::<u32>(alloc, object, "b", &None)?;
    put_nullable::<u32>(alloc, object, "c", &None)?;
    put_nullable(alloc, object, "d", &Some(2u32))?;
    put_unless_empty::<u32>(alloc, object, "e", &Vec::new(alloc))?;
    put_unless_false(alloc, object, "g", false)?;
    put_unless_false(alloc, object, "h", true)?;
    put_value(alloc, object, "i", Value::Null)
}

fn all_put(alloc: Global) -> Result<String, NoMemory> {
    let mut object = Map::new(alloc);
    put_some(alloc, &mut object)?;
    put_unless_empty(alloc, &mut object, "f", &vec![in alloc; 3u32]?)?;
    text_of(alloc, &object)
}

#[test]
fn fields_are_put(rt: HostRuntime) -> Result<(), RowError> {
    let mut trial = Trial::new(rt.alloc());
    trial.text(
        "all",
        all_put(rt.alloc()),
        "{\"a\":1,\"c\":null,\"d\":2,\"f\":[3],\"h\":true,\"i\":null}",
    );
    trial.end()
}

// What is written of what is read of the value.
fn written<T: Wire>(alloc: Global, value: &Value) -> Result<String, Misfit> {
    Ok(trimmed::<T>(alloc, value)?.to_string(alloc)?)
}

// Of the section "Semantic Tokens": two tokens, of five numbers each.
#[test]
fn numbers_of_tokens(rt: HostRuntime) -> Result<(), Fail> {
    let alloc = rt.alloc();
    let mut trial = Trial::new(alloc);
    let tokens = TokenNumbers::new(vec![in alloc; 2u32, 5, 3, 0, 3]?);
    trial.shows("one token", tokens.as_slice(), "[2, 5, 3, 0, 3]");
    drop(tokens);
    let text = "[2,5,3,0,3,0,5,4,1,0]";
    let numbers = json(alloc, text)?;
    trial.text("two tokens", written::<TokenNumbers>(alloc, &numbers), text);
    drop(numbers);
    let null = written::<Option<TokenNumbers>>(alloc, &Value::Null);
    trial.text("no tokens", null, "null");
    let odd = json(alloc, "[2,5,3,0]")?;
    let error = written::<TokenNumbers>(alloc, &odd).err();
    drop(odd);
    let length = Some(Misfit::wanted(Wanted::Length));
    trial.same("four numbers", error, length);
    Ok(trial.end()?)
}

// What is written of the member, or `none`.
fn set_read(alloc: Global, object: &Reader) -> Result<String, Misfit> {
    match object.supported::<Value>("e")? {
        Some(value) => Ok(text_of(alloc, &value)?),
        None => Ok(String::from_str(alloc, "none")?),
    }
}

fn others_read(alloc: Global, object: &Reader) -> Result<String, Misfit> {
    let others: HashMap<String, i32> = object.rest(&["b", "c", "d", "e"])?;
    Ok(text_of(alloc, &others)?)
}

fn try_read(trial: &mut Trial, alloc: Global, object: &Reader) {
    trial.same("a", object.field::<u32>("a"), Ok(1));
    trial.same("optional a", object.optional::<u32>("a"), Ok(Some(1)));
    trial.same("optional b", object.optional::<u32>("b"), Ok(None));
    trial.same("c", object.truth_or_false("c"), Ok(true));
    trial.shows("d", object.list_or_empty::<u32>("d"), "Ok([2])");
    trial.text("e", set_read(alloc, object), "{\"valueSet\":[3]}");
    trial.text("others", others_read(alloc, object), "{\"a\":1}");
}

#[test]
fn an_object_is_read(rt: HostRuntime) -> Result<(), Fail> {
    let alloc = rt.alloc();
    let value = json(
        alloc,
        "{\"a\":1,\"b\":null,\"c\":true,\"d\":[2],\"e\":{\"valueSet\":[3]}}",
    )?;
    let mut trial = Trial::new(alloc);
    match Reader::new(alloc, &value) {
        Ok(object) => try_read(&mut trial, alloc, &object),
        Err(error) => trial.shows("the object", error, "read"),
    }
    trial.same("null", Reader::new(alloc, &Value::Null).is_err(), true);
    drop(value);
    Ok(trial.end()?)
}

// Of a wide record the first misfit is told at the end, and nothing more is read after it.
fn try_wide(trial: &mut Trial, mut whole: WideReader, mut unfit: WideReader) {
    trial.same("a", whole.field::<u32>("a"), Ok(1));
    trial.same("optional a", whole.optional::<u32>("a"), Some(1));
    trial.same("no c", whole.optional::<u32>("c"), None);
    trial.shows("e", whole.supported::<Value>("e"), "None");
    trial.same("end", whole.end(5u32), Ok(5));
    trial.same("a is no truth", unfit.optional::<bool>("a"), None);
    trial.same("b after it", unfit.optional::<bool>("b"), None);
    trial.is_true("its end", is_unfit(unfit.end(5u32)));
}

#[test]
fn a_wide_object_is_read(rt: HostRuntime) -> Result<(), Fail> {
    let alloc = rt.alloc();
    let value = json(alloc, "{\"a\":1,\"b\":true,\"e\":false}")?;
    let mut trial = Trial::new(alloc);
    match (
        WideReader::new(alloc, &value),
        WideReader::new(alloc, &value),
    ) {
        (Ok(whole), Ok(unfit)) => try_wide(&mut trial, whole, unfit),
        _ => trial.is_true("the object is read", false),
    }
    trial.same("null", WideReader::new(alloc, &Value::Null).is_err(), true);
    drop(value);
    Ok(trial.end()?)
}

fn object_written(
    alloc: Global,
    rest: &Map<String, Value>,
    flat: &Map<String, Value>,
) -> Result<String, NoMemory> {
    let list = vec![in alloc; 3u32]?;
    let mut object = Writer::with_rest(alloc, rest);
    object.field("a", &1u32);
    object.optional("b", &Some(2u32));
    object.nullable::<u32>("c", &None);
    object.unless_empty("d", &list);
    object.unless_false("e", true);
    object.flat(flat);
    object.tag("kind", "g");
    drop(list);
    text_of(alloc, &object.end()?)
}

fn nothing_written(alloc: Global) -> Result<String, NoMemory> {
    text_of(alloc, &Writer::new(alloc).end()?)
}

#[test]
fn an_object_is_written(rt: HostRuntime) -> Result<(), Fail> {
    let alloc = rt.alloc();
    let rest = object(alloc, "{\"x\":0}")?;
    let flat = object(alloc, "{\"f\":4}")?;
    let mut trial = Trial::new(alloc);
    trial.text(
        "an object",
        object_written(alloc, &rest, &flat),
        "{\"a\":1,\"b\":2,\"c\":null,\"d\":[3],\"e\":true,\"f\":4,\"kind\":\"g\",\"x\":0}",
    );
    trial.text("an empty one", nothing_written(alloc), "{}");
    drop(rest);
    drop(flat);
    Ok(trial.end()?)
}

// A boolean, or else null: the first that fits.
fn try_variants(
    trial: &mut Trial,
    alloc: Global,
    value: Value,
    truth: Option<bool>,
    null: Option<()>,
) {
    trial.same("a truth", attempt::<bool>(alloc, &value), Ok(truth));
    trial.same("null", attempt::<()>(alloc, &value), Ok(null));
}

#[test]
fn first_variant_that_fits(rt: HostRuntime) -> Result<(), RowError> {
    let alloc = rt.alloc();
    let mut trial = Trial::new(alloc);
    try_variants(&mut trial, alloc, Value::Bool(true), Some(true), None);
    try_variants(&mut trial, alloc, Value::Null, None, Some(()));
    try_variants(&mut trial, alloc, Value::from(1u32), None, None);
    trial.end()
}

// Of the section "Resource changes": the member `kind` tells which change it is.
fn tagged(alloc: Global, file: &Map<String, Value>) -> Result<String, NoMemory> {
    text_of(alloc, &put_tag(alloc, "kind", "create", file)?)
}

fn flattened(
    alloc: Global,
    mut outer: Map<String, Value>,
    file: &Map<String, Value>,
) -> Result<String, NoMemory> {
    put_flat(alloc, &mut outer, file)?;
    text_of(alloc, &outer)
}

#[test]
fn variants_are_told_by_a_member(rt: HostRuntime) -> Result<(), Fail> {
    let alloc = rt.alloc();
    let mut trial = Trial::new(alloc);
    let change = json(alloc, "{\"kind\":\"create\",\"uri\":\"file:///a\"}")?;
    trial.shows("kind", tag(&change, "kind"), "Some(\"create\")");
    trial.shows("type", tag(&change, "type"), "None");
    drop(change);
    let file = object(alloc, "{\"uri\":\"file:///a\"}")?;
    let text = "{\"kind\":\"create\",\"uri\":\"file:///a\"}";
    trial.text("tagged", tagged(alloc, &file), text);
    let text = "{\"annotationId\":\"b\",\"uri\":\"file:///a\"}";
    let outer = object(alloc, "{\"annotationId\":\"b\"}")?;
    trial.text("flattened", flattened(alloc, outer, &file), text);
    drop(file);
    Ok(trial.end()?)
}

fn list_written(alloc: Global, list: &Vec<u32>) -> Result<String, NoMemory> {
    text_of(alloc, &write_value(alloc, list)?)
}

#[test]
fn written_and_read(rt: HostRuntime) -> Result<(), Fail> {
    let alloc = rt.alloc();
    let mut trial = Trial::new(alloc);
    let error = read_value::<u32>(alloc, &Value::Array(Vec::new(alloc))).err();
    let unsigned = Some(Misfit::wanted(Wanted::Unsigned));
    trial.same("no number", error, unsigned);
    let value = json(alloc, "[1,2]")?;
    let list = read_value(alloc, &value);
    drop(value);
    let list: Vec<u32> = list?;
    trial.text("written", list_written(alloc, &list), "[1,2]");
    trial.shows("read back", reads_back(alloc, &list), "Ok([1, 2])");
    drop(list);
    Ok(trial.end()?)
}
