// Changes of a text.
ghost use Rattle.std.specs.Prelude.{◌≡◌, ◌≢◌, [], Some, None, Err, IsOk, IsSome, OnOk, OnErr, length, map, string_bytes};
ghost use Rattle.std.specs.Str.{chars};
ghost use Rattle.lsp_documents.specs.Documents.{change_of, changed, all_changed};

use crate::error::ChangeError;
use crate::place::offsets;
use lsp_base::TextDocumentContentChangeEvent;

// Makes one change: puts its text in place of its range, or of the whole.
fn apply(text: &mut String, change: &TextDocumentContentChangeEvent) -> Result<(), ChangeError>
    ensures ok { OnOk result (changed (change_of change.now) (chars (string_bytes text.old))
        ≡ Some (chars (string_bytes text.new))) }
    ensures behind { result ≡ Err ChangeError.StartBehindEnd
        → changed (change_of change.now) (chars (string_bytes text.old)) ≡ None }
    ensures memory { result ≡ Err ChangeError.NoMemory
        → IsSome (changed (change_of change.now) (chars (string_bytes text.old))) }
    ensures causes { result ≢ Err ChangeError.NotOpen }
    ensures err { OnErr result (string_bytes text.new ≡ string_bytes text.old) }
{
    let (start, end) = match change.range {
        None => (0, text.len()),
        Some(range) => offsets(
            text.as_str(),
            (range.start.line, range.start.character),
            (range.end.line, range.end.character),
        ),
    };
    if end < start {
        return Err(ChangeError::StartBehindEnd);
    }
    text.replace_range(start..end, change.text.as_str())?;
    Ok(())
}

// Makes changes in order, or none: where one of several fails, a copy of the text is put back.
pub(crate) fn apply_all(
    text: &mut String,
    changes: &[TextDocumentContentChangeEvent],
) -> Result<(), ChangeError>
    ensures ok { OnOk result (all_changed (map change_of changes.now) (chars (string_bytes text.old))
        ≡ Some (chars (string_bytes text.new))) }
    ensures behind { result ≡ Err ChangeError.StartBehindEnd
        → all_changed (map change_of changes.now) (chars (string_bytes text.old)) ≡ None }
    ensures memory { length changes.now ≡ 1 → result ≡ Err ChangeError.NoMemory
        → IsSome (all_changed (map change_of changes.now) (chars (string_bytes text.old))) }
    ensures none { changes.now ≡ [] → IsOk result }
    ensures causes { result ≢ Err ChangeError.NotOpen }
    ensures err { OnErr result (string_bytes text.new ≡ string_bytes text.old) }
{
    if changes.is_empty() {
        return Ok(());
    }
    if let [change] = changes {
        return apply(text, change);
    }
    let before = text.clone()?;
    for change in changes {
        if let Err(error) = apply(text, change) {
            *text = before;
            return Err(error);
        }
    }
    Ok(())
}
