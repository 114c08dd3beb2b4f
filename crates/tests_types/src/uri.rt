// What no clause says: which texts RFC 3986 gives as URI references and which parts they have, and
// that the calls succeed.
use lsp_rows::{RowError, Trial};
use lsp_shape::{Key, read_text};
use lsp_uri::{Uri, UriError};
use std::alloc::Global;
use std::collections::HashMap;
use std::test::Fail;

// A text, then its scheme, authority, path, query and fragment. A part that is not there is a `-`.
const REFERENCES: &str = "\
ftp://ftp.is.co.za/rfc/rfc1808.txt|ftp|ftp.is.co.za|/rfc/rfc1808.txt|-|-
http://www.ietf.org/rfc/rfc2396.txt|http|www.ietf.org|/rfc/rfc2396.txt|-|-
ldap://[2001:db8::7]/c=GB?objectClass?one|ldap|[2001:db8::7]|/c=GB|objectClass?one|-
mailto:John.Doe@example.com|mailto|-|John.Doe@example.com|-|-
news:comp.infosystems.www.servers.unix|news|-|comp.infosystems.www.servers.unix|-|-
tel:+1-816-555-1212|tel|-|+1-816-555-1212|-|-
telnet://192.0.2.16:80/|telnet|192.0.2.16:80|/|-|-
urn:oasis:names:specification:docbook:dtd:xml:4.1.2|urn|-|oasis:names:specification:docbook:dtd:xml:4.1.2|-|-
foo://example.com:8042/over/there?name=ferret#nose|foo|example.com:8042|/over/there|name=ferret|nose
urn:example:animal:ferret:nose|urn|-|example:animal:ferret:nose|-|-
http://a/b/c/d;p?q|http|a|/b/c/d;p|q|-
g:h|g|-|h|-|-
g|-|-|g|-|-
./g|-|-|./g|-|-
g/|-|-|g/|-|-
/g|-|-|/g|-|-
//g|-|g||-|-
?y|-|-||y|-
g?y|-|-|g|y|-
#s|-|-||-|s
g#s|-|-|g|-|s
g?y#s|-|-|g|y|s
;x|-|-|;x|-|-
g;x|-|-|g;x|-|-
g;x?y#s|-|-|g;x|y|s
|-|-||-|-
.|-|-|.|-|-
./|-|-|./|-|-
..|-|-|..|-|-
../|-|-|../|-|-
../g|-|-|../g|-|-
../..|-|-|../..|-|-
../../|-|-|../../|-|-
../../../../g|-|-|../../../../g|-|-
/./g|-|-|/./g|-|-
/../g|-|-|/../g|-|-
g.|-|-|g.|-|-
..g|-|-|..g|-|-
./g/.|-|-|./g/.|-|-
g/../h|-|-|g/../h|-|-
g;x=1/../y|-|-|g;x=1/../y|-|-
g?y/../x|-|-|g|y/../x|-
g#s/../x|-|-|g|-|s/../x
http:g|http|-|g|-|-
file:///path/to/file|file||/path/to/file|-|-
file://test|file|test||-|-
a:|a|-||-|-
a+b-c.9:/|a+b-c.9|-|/|-|-
a:b//c|a|-|b//c|-|-
a:/b//c|a|-|/b//c|-|-
a:?b|a|-||b|-
//|-|||-|-
///a|-||/a|-|-
////|-||//|-|-
//:|-|:||-|-
//h:|-|h:||-|-
//@h|-|@h||-|-
//u:p;%40@h:8080?q|-|u:p;%40@h:8080||q|-
//a%20b!$&'()*+,;=|-|a%20b!$&'()*+,;=||-|-
//256.1.1.1|-|256.1.1.1||-|-
./a:b|-|-|./a:b|-|-
a/b:c@d|-|-|a/b:c@d|-|-
a@b|-|-|a@b|-|-
/a:b|-|-|/a:b|-|-
%41%c3%A9|-|-|%41%c3%A9|-|-
-._~!$&'()*+,;=@|-|-|-._~!$&'()*+,;=@|-|-
?|-|-|||-
#|-|-||-|
??/:@#?/:@|-|-||?/:@|?/:@
//[1:2:3:4:5:6:7:8]|-|[1:2:3:4:5:6:7:8]||-|-
//[1:2:3:4:5:6:1.2.3.4]|-|[1:2:3:4:5:6:1.2.3.4]||-|-
//[::2:3:4:5:6:7:8]|-|[::2:3:4:5:6:7:8]||-|-
//[1::3:4:5:6:7:8]|-|[1::3:4:5:6:7:8]||-|-
//[1:2::4:5:6:7:8]|-|[1:2::4:5:6:7:8]||-|-
//[1:2:3::5:6:7:8]|-|[1:2:3::5:6:7:8]||-|-
//[1:2:3:4::6:7:8]|-|[1:2:3:4::6:7:8]||-|-
//[1:2:3:4:5::7:8]|-|[1:2:3:4:5::7:8]||-|-
//[1:2:3:4:5:6::8]|-|[1:2:3:4:5:6::8]||-|-
//[1:2:3:4:5:6:7::]|-|[1:2:3:4:5:6:7::]||-|-
//[::]|-|[::]||-|-
//u@[::FFFF:192.0.2.128]:80/x|-|u@[::FFFF:192.0.2.128]:80|/x|-|-
//[1:2:3:4:5::199.200.249.255]|-|[1:2:3:4:5::199.200.249.255]||-|-
//[v1.a]|-|[v1.a]||-|-
//[V7f.a:!]:|-|[V7f.a:!]:||-|-";

const NOT_REFERENCES: &str = "\
a b
 
1:2
:
:a
+a:b
a_b:c
%41:b
a\\b
<a>
a\"
a^b
a`b
{a}
a|b
é
%
%4
%4g
%g4
a?%4
a#%
##
a#b#c
a?[
a#]
/[
/a]
//a@b@c
//h:8a
//h:1:2
//a%4
//a b
//[
//]
//[]
//[::1
//::1]
//[::1]x
//[::1]:x
//[::1]]
//a[::1]
//[:::]
//[1::2::3]
//[12345::]
//[g::]
//[:1:2:3:4:5:6:7]
//[1:2:3:4:5:6:7]
//[1:2:3:4:5:6:7:8:9]
//[1:2:3:4:5:6:7::8]
//[::1:2:3:4:5:6:7:8]
//[1:2:3:4:5:6:7:1.2.3.4]
//[1:2:3:4:5:6::1.2.3.4]
//[::1.2.3.256]
//[::1.2.3.4.5]
//[::1.2.3]
//[::01.2.3.4]
//[::1.2.3.4:5]
//[1.2.3.4::]
//[::%31]
//[v.a]
//[v1.]
//[vg.a]
//[v1.%41]
//[v1a]";

fn shown(part: Option<&str>) -> &str {
    match part {
        Some(text) => text,
        None => "-",
    }
}

// The row of the text that the row begins with.
fn row_of(alloc: Global, row: &str) -> Result<String, UriError> {
    let Some((text, _)) = row.split_once('|') else {
        return Ok(String::new(alloc));
    };
    let uri = Uri::parse(alloc, text)?;
    let scheme = shown(uri.scheme());
    let authority = shown(uri.authority());
    let path = uri.path();
    let query = shown(uri.query());
    let fragment = shown(uri.fragment());
    let text = uri.as_str();
    Ok(format!(in alloc; "{text}|{scheme}|{authority}|{path}|{query}|{fragment}")?)
}

#[test]
fn parts_of_references(rt: HostRuntime) -> Result<(), RowError> {
    let mut trial = Trial::new(rt.alloc());
    for row in REFERENCES.lines() {
        trial.text(row, row_of(rt.alloc(), row), row);
    }
    trial.end()
}

#[test]
fn other_texts_are_refused(rt: HostRuntime) -> Result<(), RowError> {
    let mut trial = Trial::new(rt.alloc());
    for text in NOT_REFERENCES.lines() {
        let error = Uri::parse(rt.alloc(), text).err();
        trial.same(text, error, Some(UriError::NotUri));
    }
    trial.end()
}

fn try_order(trial: &mut Trial, upper: &Uri, lower: &Uri, copy: &Uri) {
    trial.is_true("two cases are two URIs", upper != lower);
    trial.is_true("upper case comes first", upper < lower);
    trial.is_true("a copy is equal", lower == copy);
}

fn try_printed(trial: &mut Trial, alloc: Global, uri: Uri) {
    trial.text("displayed", format!(in alloc; "{uri}"), "http://a/");
    trial.shows("shown", uri, "Uri { text: \"http://a/\" }");
    let error = format!(in alloc; "{}", UriError::NotUri);
    trial.text("the error", error, "not a URI reference");
}

#[test]
fn compared_and_printed_by_the_text(rt: HostRuntime) -> Result<(), Fail> {
    let alloc = rt.alloc();
    let upper = Uri::parse(alloc, "HTTP://a/")?;
    let lower = Uri::parse(alloc, "http://a/")?;
    let copy = lower.clone()?;
    let mut trial = Trial::new(alloc);
    try_order(&mut trial, &upper, &lower, &copy);
    drop(upper);
    drop(lower);
    try_printed(&mut trial, alloc, copy);
    Ok(trial.end()?)
}

const URIS: &str = r#"
"file:///a"
! "a b" :: a URI is wanted
! 1 :: a URI is wanted
! null :: a URI is wanted
! [] :: a URI is wanted
"#;

const ENTRIES: &str = "{\"file:///a\":[1],\"untitled:Untitled-1\":[]}";

fn try_key(trial: &mut Trial, map: HashMap<Uri, Vec<u32>>, uri: Uri) {
    trial.same("entries", map.len(), 2);
    trial.is_true("the URI is a key", map.contains_key(&uri));
    trial.same("as a key", uri.as_text(), "file:///a");
    trial.is_written(map, ENTRIES);
    drop(uri);
}

#[test]
fn read_and_written(rt: HostRuntime) -> Result<(), Fail> {
    let alloc = rt.alloc();
    let mut trial = Trial::new(alloc);
    trial.holds::<Uri>(URIS);
    trial.clones::<Uri>(URIS);
    let map = read_text(alloc, ENTRIES)?;
    try_key(&mut trial, map, Uri::parse(alloc, "file:///a")?);
    Ok(trial.end()?)
}
