//! What a request asks for.

ghost use Rattle.std.specs.Prelude.{◌≡◌};
ghost use Rattle.session_edits.specs.Requests.{asked_by, request_meaning};

use bench_texts::Edit;
use session_script::{Names, Request, ScriptText};

/// A question about the texts. Tests and models go by their names.
#[derive(Drop)]
pub enum Question {
    /// The items of the model with their numbers.
    Items {
        model: ScriptText,
    },
    /// The log of the test under the model.
    Show {
        test: ScriptText,
        model: ScriptText,
    },
    /// The counted states of the test under the model.
    Counts {
        test: ScriptText,
        model: ScriptText,
    },
    /// All tests under these models.
    Table {
        models: Names,
    },
    /// Where the two models tell tests apart.
    Difference {
        first: ScriptText,
        second: ScriptText,
    },
}

/// What a request asks for.
#[derive(Drop)]
pub enum Asked {
    /// An edit of the texts.
    Edit(Edit),
    /// An answer from the texts.
    Question(Question),
}

/// What a request with this text behind it asks for.
pub fn request_meaning(request: Request, text: ScriptText) -> Asked
    ensures { asked_by result ≡ request_meaning request text }
{
    let text = text.into_bytes();
    match request {
        Request::PutTest => Asked::Edit(Edit::PutTest { text }),
        Request::PutModel { model } => Asked::Edit(Edit::PutModel {
            model: model.into_bytes(),
            text,
        }),
        Request::SetInit { test } => Asked::Edit(Edit::SetInit {
            test: test.into_bytes(),
            text,
        }),
        Request::SetThread { test, thread } => Asked::Edit(Edit::SetThread {
            test: test.into_bytes(),
            thread: thread as usize,
            text,
        }),
        Request::SetCondition { test } => Asked::Edit(Edit::SetCond {
            test: test.into_bytes(),
            text,
        }),
        Request::SetLocations { test } => Asked::Edit(Edit::SetLocations {
            test: test.into_bytes(),
            text,
        }),
        Request::SetItem { model, item } => Asked::Edit(Edit::SetItem {
            model: model.into_bytes(),
            item,
            text,
        }),
        Request::InsertItem { model, before } => Asked::Edit(Edit::InsertItem {
            model: model.into_bytes(),
            before,
            text,
        }),
        Request::RemoveItem { model, item } => Asked::Edit(Edit::RemoveItem {
            model: model.into_bytes(),
            item,
        }),
        Request::DropTest { test } => Asked::Edit(Edit::DropTest {
            test: test.into_bytes(),
        }),
        Request::DropModel { model } => Asked::Edit(Edit::DropModel {
            model: model.into_bytes(),
        }),
        Request::Items { model } => Asked::Question(Question::Items { model }),
        Request::Show { test, model } => Asked::Question(Question::Show { test, model }),
        Request::Counts { test, model } => Asked::Question(Question::Counts { test, model }),
        Request::Table { models } => Asked::Question(Question::Table { models }),
        Request::Difference { first, second } => {
            Asked::Question(Question::Difference { first, second })
        }
    }
}
