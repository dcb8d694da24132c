// Laws of packets that move through stages. They do nothing when they run. Each is proved for all kinds of cells and of packets (proofs/),
// and stated here for lists of numbers, since a clause can't range over types.
ghost use Rattle.std.specs.Prelude.{ℕ, List};
ghost use Rattle.lucid_pipe_laws.specs.Rows.{Steps};
ghost use Rattle.lucid_pipe_laws.specs.Picture.{EntersPicture, KeepsPicture, LeavesPicture, Looks, SettlesToAll};
ghost use Rattle.lucid_pipe_laws.specs.Places.{Leaves, Places};
ghost use Rattle.lucid_pipe_laws.specs.Sights.{FlightLaw, SnapLaw, StageLaw};
ghost use Rattle.lucid_pipe_laws.specs.Stream.{Advances, Passes, SettlesTo};

/// The entered events and the number of packets that passed each stage determine a pipe, for any order of moves. So they determine its
/// cells, the places of its packets, the packets that leave and the settled state: those of whole passes, one after another.
pub fn moves_keep_the_picture()
    ensures goes { (step : Steps (List ℕ) (List ℕ)) → KeepsPicture step }
    ensures leaves { (step : Steps (List ℕ) (List ℕ)) → LeavesPicture step }
    ensures enters { (step : Steps (List ℕ) (List ℕ)) → EntersPicture step }
    ensures cells { (step : Steps (List ℕ) (List ℕ)) → Looks step }
    ensures places { (step : Steps (List ℕ) (List ℕ)) → Places step }
    ensures out { (step : Steps (List ℕ) (List ℕ)) → Leaves step }
    ensures settles { (step : Steps (List ℕ) (List ℕ)) → SettlesToAll step }
{}

/// The events that entered at each tick determine a pipe whose packets all move once a tick: its packets, its cells, the packets that
/// leave it and its settled state.
pub fn ticks_keep_the_picture()
    ensures advances { (step : Steps (List ℕ) (List ℕ)) → Advances step }
    ensures passes { (step : Steps (List ℕ) (List ℕ)) → Passes step }
    ensures settles { (step : Steps (List ℕ) (List ℕ)) → SettlesTo step }
    ensures flight { (step : Steps (List ℕ) (List ℕ)) (tag : List ℕ → ℕ) → FlightLaw step tag }
    ensures cells { (step : Steps (List ℕ) (List ℕ)) → StageLaw step }
    ensures copies { (step : Steps (List ℕ) (List ℕ)) → SnapLaw step }
{}
