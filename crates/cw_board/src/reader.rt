//! A reader of the board, and what it sees.
ghost use Rattle.std.specs.Prelude.{◌≡◌, ◌⊎◌, ◌<◌, length, MatchResult};
ghost use Rattle.cw_board.specs.Records.{configs_of, IsFirstPart};

use crate::history::{BoardNaming, Front};
use crate::press::{OfBoard, ShelvesReader, ShelvesReading};
use crate::writer::Note;
use cw_config::ConfigState;
use std::marker::Model;

/// A reader that isn't looking. Contracts see the records that it saw or was told of.
#[derive(Drop)]
pub struct Board<J: BoardNaming> {
    reader: ShelvesReader<J>,
    known: Front,
}

impl<J: BoardNaming> Model for Board<J> {
    ghost use Rattle.std.specs.Prelude.{◌≡◌, List};
    ghost use Rattle.cw_board.specs.declared.posted.Posted.{Posted};

    ghost Value = { List Posted };

    ghost view = { λ board. board.known.log };

    ghost invariant = { λ board. board.known.book ≡ J.book };
}

/// What a reader looks at. End it by `leave`, which gives the reader back. A put may wait for it.
pub struct BoardView<J: BoardNaming> {
    reading: ShelvesReading<J>,
    shown: Front,
    worker: u32,
}

impl<J: BoardNaming> Model for BoardView<J> {
    ghost use Rattle.cw_board.specs.Sides.{Viewed};
    ghost use Rattle.cw_board.specs.Viewing.{IsViewing};

    ghost Value = { Viewed };

    ghost view = { λ v. record { shown = v.shown.log; worker = v.worker } };

    ghost invariant = { λ v. IsViewing J.book J.workers v.reading.part.value v.shown v.worker };
}

impl<J: BoardNaming> Board<J> {
    // That knows nothing.
    pub(crate) fn new(reader: ShelvesReader<J>, known: Front) -> Board<J>
        requires { known.book ≡ J.book }
        ensures { result ≡ known.log }
    {
        Board { reader, known }
    }

    /// Shows a worker's config view. It is never older than what this reader saw or was told of. The reader comes back
    /// where the writer is gone, or shows less than that.
    pub fn look(self, worker: u32) -> Result<BoardView<J>, Board<J>>
        requires { worker < J.workers }
        ensures seen { MatchResult result (λ view. IsFirstPart self view.shown) (λ board. board ≡ self) }
        ensures worker { MatchResult result (λ view. view.worker ≡ worker) (λ board. board ≡ self) }
    {
        let Board { reader, known } = self;
        match reader.enter_as::<OfBoard<J>>() {
            Ok(reading) => {
                let shown = reading.get().front();
                if shown.goes_on_from(&known) {
                    Ok(BoardView {
                        reading,
                        shown,
                        worker,
                    })
                } else {
                    Err(Board {
                        reader: reading.leave(),
                        known,
                    })
                }
            }
            Err(reader) => Err(Board { reader, known }),
        }
    }

    /// Tells this reader what the writer knew to be published. From now on no look of it is older.
    pub fn tell(&mut self, note: Note<J>)
        ensures told { IsFirstPart note self.new }
        ensures kept { IsFirstPart self.old self.new }
        ensures one { (self.new ≡ self.old) ⊎ (self.new ≡ note) }
    {
        self.known = self.known.longer(note.front());
    }
}

impl<J: BoardNaming> BoardView<J> {
    /// How many records of its worker it shows.
    pub fn prefix(&self) -> u64
        ensures { result ≡ length (configs_of self.now.worker self.now.shown) }
    {
        self.reading.get().shelf(self.worker).count
    }

    /// The view of these records.
    pub fn config(&self) -> &ConfigState
        ensures { result.now ≡ configs_of self.now.worker self.now.shown }
    {
        &self.reading.get().shelf(self.worker).config
    }

    /// Gives the view up. The reader has seen what it showed.
    pub fn leave(self) -> Board<J>
        ensures { result ≡ self.shown }
    {
        let BoardView {
            reading,
            shown,
            worker: _,
        } = self;
        Board {
            reader: reading.leave(),
            known: shown,
        }
    }
}
