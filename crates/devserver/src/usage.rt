//! What the program says of itself.

/// The answer to `--version`.
pub const VERSION: &str = "devserver 0.1.0\n";

/// The answer to `--help`: the commands, what isn't built yet, and the exit statuses.
pub const USAGE: &str = "usage: devserver COMMAND

Run in a Rails application's folder.

  get TARGET     answer one request: `devserver get /hello/index`
  tree           list the constants of the application and their files
  --help         this text
  --version      the version

`get` reads applications of controllers alone today: in app/controllers/NAME_controller.rb a class without a
parent, whose one method `def self.ACTION(params)` gives one text. A file's syntax error is answered with 500.

Not built yet: check, check eager, replay, demo N, serve ADDRESS WORKERS [CONNECTIONS].

exit status:
   0 done                                1 answered, but not with 200
   2 faulty command line                 3 the files could not be read
   4 the output could not be written     5 out of memory
   6 the application is refused         11 not built yet
";
