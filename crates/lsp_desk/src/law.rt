//! What holds of every desk, whatever is called: functions whose contract is a law.
ghost use Rattle.lsp_desk.specs.Laws.{DeskLivesGoOn, EndsStay, ClientsLeaveLife, MessagesPass, TicketsAddUp, AnswersReachOldest, OthersTakeNone};

/// No life follows Exited, and a life falls only from Initializing to Uninitialized.
pub fn lives_go_on()
    ensures { DeskLivesGoOn }
{}

/// Whatever is called, a session that has ended stays so.
pub fn ends_stay()
    ensures { EndsStay }
{}

/// The calls of a server leave the life as it is: the session alone changes it.
pub fn clients_leave_life()
    ensures { ClientsLeaveLife }
{}

/// Each message that is put in is taken out once and in order, or it is still to be sent.
pub fn messages_pass()
    ensures { MessagesPass }
{}

/// The tickets given are, each as often, those whose answers were taken, are kept, or are awaited.
pub fn tickets_add_up()
    ensures { TicketsAddUp }
{}

/// An answer goes to the oldest request that awaits its id, or to none.
pub fn answers_reach_oldest()
    ensures { AnswersReachOldest }
{}

/// All calls but those of a message or an answer take no memory, whatever the state.
pub fn others_take_none()
    ensures { OthersTakeNone }
{}
